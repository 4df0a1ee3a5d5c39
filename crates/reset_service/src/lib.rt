//! What the program of the distributed reset service does, as calls on texts, readers and writers: it
//! replays scripts of reset events on the booted configuration of a topology and writes an answer to
//! each line, checks the network that a script leaves, plans how it recovers, records what a script did as a history,
//! verifies histories, runs a thread for each node or a seeded scheduler and writes the history that they keep, draws
//! histories, writes pages that play them, holds sessions, writes topologies, prints the tables that the nodes act by,
//! explains the words of its answers, and reads those of its command line.
//! Scripts are replayed by the crate `script_replay`, and the command line is read by `command_words`.
#![tactic(auto)]

mod asked;
mod chosen;
mod counts;
mod drawn;
mod driven;
mod explained;
mod explored;
mod laws;
mod line;
mod marked;
mod page;
mod parted;
mod pictured;
mod planned;
mod reasons;
mod recorded;
mod searched;
mod session;
mod shaped;
mod shown;
mod started;
mod tables;
mod threaded;
mod told;
mod verified;
mod whole;

pub use asked::{Question, verify_asked};
pub use command_words::{
    CheckWords, DriveWords, ExploreWords, Job, LineFault, PageWords, PictureWords, PlanWords,
    RecordWords, ReplayWords, SessionWords, ShapeWords, ThreadWords, VerifyWords, read_words,
};
pub use driven::{Drive, drive_from, drive_text};
pub use explained::{explain, explain_topics};
pub use explored::{Exploring, explore_text};
pub use laws::{
    booted_invariants_hold, driven_runs_are_verified, kept_histories_are_runs, one_driven_run,
    one_verification, recordings_are_verified, threads_are_verified, threads_keep_a_run,
    verified_histories_tell_steps, verified_reports_are_true,
};
pub use marked::replay_marked;
pub use node_threads::TurnLimit;
pub use page::{MAX_PLAYED, page_from, page_text};
pub use parted::{Part, picture_part};
pub use pictured::{picture_from, picture_text};
pub use planned::{plan_from, plan_text};
pub use recorded::record_from;
pub use schedules::Target;
pub use script_replay::{
    BufferedOutput, Marks, READ_LIMIT, RunStop, Status, Tally, check_repairs_text, check_text,
    one_joined_output, one_output, one_record, read_text, record_text, recordings_are_replays,
    replay, replay_joined, replay_text, scripts_are_steps, stretches_are_runs,
};
pub use session::{Past, session_text};
pub use shaped::write_shape;
pub use shown::explore_history;
pub use snapshots::MAX_SNAPSHOT;
pub use started::{check_from, check_repairs_from, replay_from};
pub use tables::print_tables;
pub use threaded::{ThreadRun, threads_from, threads_run, threads_text};
pub use verified::{verify_from, verify_text};
pub use whole::check_whole;
