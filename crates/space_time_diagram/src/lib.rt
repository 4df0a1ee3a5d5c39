//! Space-time diagrams of histories: one picture, as SVG, of what the entries of a history did to the nodes.
//!
//! A lane a node, in the order of the tree that the opening has, and a row an entry, downward. On its lane a node has a
//! band, by what its wave registers are; each entry has a mark, and each completion a line across the lanes of its
//! component. A picture is of the whole network or of some of its nodes, and of the whole history or of a part of it.
#![tactic(auto)]

mod band;
mod completion;
mod component;
mod diagram;
mod escape;
mod frame;
mod heading;
mod lane;
mod laws;
mod mark;
mod page;

pub use diagram::{DiagramStop, put_diagram};
pub use laws::{bands_show_registers, nodes_have_lanes};
pub use page::{MAX_BEFORE, MAX_LANES, MAX_MARKS};
