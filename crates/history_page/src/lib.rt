//! Pages that play histories: one HTML page, by itself, that plays the entries of a history forward and back.
//!
//! What is the same on all pages stands before and after the data, which gives line by line the opening, the entries,
//! what each wrote and what fails since.
#![tactic(auto)]

mod boot;
mod changes;
mod concerned;
mod entry;
mod field;
mod frame;
mod laws;
mod line;
mod moments;
mod page;
mod views;

pub use concerned::{add_neighbours, entry_node};
pub use frame::HEAD;
pub use laws::{data_is_harmless, failing_elsewhere_stays};
pub use moments::MOMENTS;
pub use page::{PageStop, put_page};
pub use views::VIEWS;
