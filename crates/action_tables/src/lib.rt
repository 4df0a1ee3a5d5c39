//! Tables of guarded actions: sets of their cases, their rows in print, the registers that they ask of other
//! nodes, how all output is written, and how numbers and lists are read.
//!
//! A table is written once, as a macro that calls back with its rows. [`enabled_cases`],
//! [`fire_case`] and [`case_rows`] make of the rows what a layer needs of its table.
#![tactic(auto)]

mod case_set;
mod cutting;
mod list;
mod modulus;
mod nodes;
mod number;
mod part;
mod put;
mod row;
mod table;

pub use case_set::{CaseSet, MOST_CASES};
pub use cutting::cut;
pub use list::{ListItem, put_list};
pub use modulus::{MAX_MODULUS, MIN_MODULUS};
pub use nodes::{ids_ascend, regs_of};
pub use number::{read_number, split_number};
pub use part::{Part, put_parts};
pub use put::{WriteFault, put_bytes, put_number};
pub use row::{CaseRow, print_rows};
