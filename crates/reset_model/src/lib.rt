//! The model of the reset machine: configurations, steps and runs as definitions with their laws, events
//! and the lines that name them, and what an event does at a node, from what the node sees.
#![tactic(auto)]

mod action;
pub mod decide;
mod event;
mod event_kind;
mod laws;
pub mod neighbourhood;
mod node_view;
pub mod plan;
mod program;
mod run_laws;
mod step;
mod text;
mod view_plan;

pub use action::{Arguments, misfit, on_clock, reads_near};
pub use event::Event;
pub use laws::{
    completions_are_true, mends_rest, no_step_is_refused, one_boot, outcomes_are_steps,
    sound_is_quiet, states_stay, steps_stay_sound, views_decide, wave_pictures,
};
pub use node_view::{Near, View};
pub use program::{Program, ProgramOf};
pub use run_laws::{headline, runs_are_steps, runs_stay_sound, waves_end};
pub use step::{Done, Reply, StepRefusal, reply_to};
pub use text::{
    one_event_a_line, read_event, split_wave_event, split_word, two_numbers, word_and_neighbour,
    write_event,
};
pub use view_plan::Plan;
