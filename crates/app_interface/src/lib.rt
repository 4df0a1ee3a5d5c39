//! What an application of the distributed reset service is: its local states, its actions, and its laws.
//!
//! The service runs one application at every node. An application is a type and not a value: the
//! functions of [`Application`] are associated functions, and what one node keeps is a
//! [`Local`](Application::Local) state.
#![tactic(auto)]

mod application;
mod identifier;
mod idle;
mod reads;
mod refusal;
mod view;

pub use application::Application;
pub use identifier::{is_id, named_id, read_id};
pub use idle::Idle;
pub use reads::Reads;
pub use refusal::{ClockRefusal, LocalFault};
pub use view::{Here, Seen, seen_at};
