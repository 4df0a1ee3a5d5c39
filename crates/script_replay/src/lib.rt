//! Scripts of reset events, faults and questions: each is replayed on the booted configuration of a topology, with an
//! answer to each line, and what it leaves can be checked.
#![tactic(auto)]

mod answer;
mod buffered_output;
mod faults;
mod injected;
mod input;
mod laws;
mod left;
mod marked;
mod moves;
mod network;
mod next_line;
mod recorded;
mod recording;
mod replays;
mod rows;
mod script;
mod show;
mod snapshot;
mod status;
mod tally;
mod verdicts;

pub use answer::{
    answer as answer_command, answer_step, put_bad_line, put_numbered, put_refusal, put_reply,
    put_topology_fault,
};
pub use buffered_output::BufferedOutput;
pub use faults::answer_alarm;
pub use injected::{drawn, fault_refusal_line, put_drawn};
pub use input::{READ_LIMIT, read_text, split_line};
pub use laws::{
    one_joined_output, one_output, one_record, recordings_are_replays, scripts_are_steps,
    stretches_are_runs,
};
pub use left::leave_script;
pub use marked::{Marks, run_marked};
pub use network::{Network, read_network};
pub use next_line::{NextLine, next_line as first_line_of};
pub use recorded::{record_script, record_text};
pub use recording::text_of;
pub use replays::{
    check_repairs_text, check_text, refuse_input, refuse_topology, replay, replay_joined,
    replay_text, run_script,
};
pub use script::{Command, Line, read_line};
pub use show::show_node;
pub use status::{Purpose, RunStop, Status};
pub use tally::Tally;
pub use verdicts::put_verdicts;
