//! The applications of the distributed reset service, and the choice of one by its name.
//!
//! What the program knows by an application's name is chosen here: in code by [`with_application`], in definitions by
//! `ForApp`.
#![tactic(auto)]

mod choice;
mod word;

pub use app_interface::Idle;
pub use app_mutex::EdgeReversal;
pub use app_routes::Routes;
pub use app_token::Token;
pub use topology::AppName;
pub use word::app_word;
