//! Snapshots: texts of configurations, which are read line by line.
#![tactic(auto)]

mod answer;
mod configuration;
mod fault;
mod item;
mod laws;
mod line;
mod network;
mod reading;
mod snapshot;
mod words;

pub use answer::put_snapshot_fault;
pub use fault::SnapshotFault;
pub use laws::{one_snapshot, snapshots_read_back};
pub use line::MAX_SNAPSHOT_LINE;
pub use snapshot::{MAX_SNAPSHOT, read_snapshot};
