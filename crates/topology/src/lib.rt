//! Topologies of the distributed reset service: graphs, their identifiers and their text.
#![tactic(auto)]

mod fault;
mod id;
mod ids;
mod laws;
mod leaders;
mod links;
mod nodes;
mod rows;
mod search;
mod text;
mod topology;

pub use fault::{MAX_LINKS, MAX_NODES, TopoFault};
pub use id::NodeId;
pub use laws::{
    components_are_parts, connected_is_whole, distance_back, leaders_lead, nodes_are_up,
    one_component, one_distance, one_first_fault, one_topology, reached_is_tested, walks_back,
};
pub use search::distances_to;
pub use text::{AppName, MAX_TEXT, ReadFault, TopologyText, app_named, read_topology};
pub use topology::Topology;
