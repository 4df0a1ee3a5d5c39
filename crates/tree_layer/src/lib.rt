//! The tree layer of the distributed reset service: a spanning tree under an elected leader.
//!
//! The tree layer of A. Arora and M. Gouda, "Distributed Reset", IEEE Transactions on Computers
//! 43(9), 1994, in this project's profile: the leader is the greatest identifier of a component.
#![tactic(auto)]

mod boot;
mod effects;
mod guards;
mod laws;
mod regs;
mod table;
mod view;

pub use boot::boot_tree;
pub use laws::{boot_is_picture, one_boot, tree_pictures};
pub use regs::{TreeRefusal, TreeRegs};
pub use table::{tree_enabled, tree_fire, tree_good, tree_rows};
pub use view::TreeView;
