//! Histories of the distributed reset service: what happened to a configuration, entry by entry, and
//! the book that keeps it.
#![tactic(auto)]

mod book;
mod entry;
mod line;
mod lines;
mod log;
mod openings;
mod player;
mod read;
mod refusal;
mod replay;
mod segments;
mod stretches;
mod text;
mod verification;
mod verifier;

pub use book::{Book, MAX_ENTRIES};
pub use entry::{Entry, Receipt, Report, Summary, VerifyFault};
pub use line::{lemma_fault_has_line, lemma_step_has_line};
pub use lines::MAX_LINE;
pub use read::{BookText, is_graphic, is_printable, read_book};
pub use refusal::{ApplyRefusal, AtFault, BookRefusal, DisturbRefusal};
pub use replay::{play, play_all};
pub use stretches::{
    books_tell_steps, replays_stay_shaped, reports_are_completions, reports_are_true,
    stretches_are_steps, undisturbed_parts_are_stretches,
};
pub use text::{
    BookFault, books_read_back, one_reading_a_text, put_entry, put_first_line, write_book,
};
pub use verification::{
    JudgeFault, ReaderFault, Refused, Resumed, judge_first, judge_reader, one_verdict_a_text,
    resume_reader, verify, verify_reader,
};
