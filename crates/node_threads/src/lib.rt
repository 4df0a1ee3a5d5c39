//! Node threads of the distributed reset service: one thread a node, a book under one lock, and the proof
//! that what the threads were told is what the book has.
#![tactic(auto)]

mod attendance;
mod closing;
mod guarded;
mod laws;
mod locked;
mod refusal;
mod round;
mod run;
mod seat;
mod sharing;
mod tasks;
mod threads;
mod turns;
mod unlocked;

pub use closing::{CloseFault, Outcome, SeatList, close};
pub use laws::threads_take_steps;
pub use locked::Locked;
pub use node_choices::next_event;
pub use refusal::{CommitRefusal, LookRefusal, SeatRefusal, ShareFault};
pub use round::{Round, Sharing};
pub use run::{RunCause, RunFault, run_nodes, run_nodes_as};
pub use seat::Seat;
pub use sharing::{MAX_SEATS, Shared, select, share};
pub use tasks::{Task, TurnLimit};
pub use turns::{Gate, MAX_TURNS, TurnsEnd, node_turns};
