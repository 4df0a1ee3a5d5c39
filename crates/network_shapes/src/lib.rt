//! Topology texts of standard shapes: rings, paths, stars, grids, trees and random networks.
#![tactic(auto)]

mod laws;
mod links;
mod shape;
mod table;
mod text;

pub use laws::shapes_are_topologies;
pub use shape::Shape;
pub use text::shape_text;
