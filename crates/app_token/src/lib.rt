//! Token passing: an application of the distributed reset service in which one node at a time holds
//! a token and hands it to a neighbour.
//!
//! Neighbours talk by bits alone. A node that passes the token turns over its given bit for the
//! neighbour, and the neighbour takes the token by turning over its own taken bit: the token is on
//! its way while the two bits differ.
#![tactic(auto)]

mod bits;
mod links;
mod local;
mod read;
mod show;
mod table;
mod token;

pub use bits::Bits;
pub use links::{is_in_flight, link_rows};
pub use local::TokenLocal;
pub use table::app_rows;
pub use token::Token;
