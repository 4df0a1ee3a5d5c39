//! The words of the program's command line: what they ask for, or what is wrong with them.
#![tactic(auto)]

mod check_words;
mod commands;
mod drive_words;
mod explore_words;
mod help;
mod page_words;
mod picture_words;
mod plan_words;
mod record_words;
mod replay_words;
mod session_words;
mod shape_words;
mod thread_words;
mod verify_words;
mod words;

pub use check_words::CheckWords;
pub use drive_words::DriveWords;
pub use explore_words::ExploreWords;
pub use page_words::PageWords;
pub use picture_words::PictureWords;
pub use plan_words::PlanWords;
pub use record_words::RecordWords;
pub use replay_words::ReplayWords;
pub use session_words::SessionWords;
pub use shape_words::ShapeWords;
pub use thread_words::ThreadWords;
pub use verify_words::VerifyWords;
pub use words::{Job, LineFault, read_words};
