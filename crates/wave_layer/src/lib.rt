//! The wave layer of the distributed reset service: a diffusing wave with session numbers.
//!
//! A reset request travels up the spanning tree to the root, the root opens a new session, the
//! session travels down as each node joins, and the end of the reset travels up again as each node
//! finishes after its children. The table of rows is this project's profile of the wave layer of
//! A. Arora and M. Gouda, "Distributed Reset", IEEE Transactions on Computers 43(9), 1994.
#![tactic(auto)]

mod boot;
mod effects;
mod guards;
mod holds;
mod modulus;
mod moves;
mod regs;
mod table;
mod view;

pub use boot::boot_wave;
pub use holds::wave_good;
pub use modulus::Modulus;
pub use moves::{finish, join, open, relay, request};
pub use regs::{FatherSeen, Phase, WaveMove, WaveRefusal, WaveRegs};
pub use table::{wave_enabled, wave_fire, wave_rows};
pub use view::WaveView;
