//! Neighbour exclusion: an application of the distributed reset service in which a node goes in and
//! out, and no two neighbours are in at once.
//!
//! Every node has one bit, and the two bits of a link's ends say whose turn it is there. A node goes
//! in where it holds the turn of each of its links. Where it goes out it turns its bit over, and so
//! hands the turns of all its links to its neighbours.
#![tactic(auto)]

mod laws;
mod links;
mod local;
mod mutex;
mod table;
mod text;
mod turn;

pub use laws::{
    bits_reverse_links, enters_with_its_turns, neighbours_exclude, one_end_holds_the_turn,
};
pub use links::link_rows;
pub use local::MutexLocal;
pub use mutex::EdgeReversal;
pub use table::app_rows;
pub use turn::holds_turn;
