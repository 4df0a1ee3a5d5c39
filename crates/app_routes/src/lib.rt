//! Routing tables: an application of the distributed reset service in which each node learns, from
//! its neighbours alone, a way to every other node.
//!
//! A node knows the way to itself. It asks a neighbour for its entries, and takes each one that is
//! better than its own: one link further, with the neighbour as the next node.
#![tactic(auto)]

mod entry;
mod laws;
mod links;
mod local;
mod pull;
mod read;
mod routes;
mod show;
mod table;

pub use entry::Entry;
pub use laws::{entries_are_found, pulls_take_better_entries, routes_arrive};
pub use links::link_rows;
pub use local::RoutesLocal;
pub use routes::Routes;
pub use table::app_rows;
