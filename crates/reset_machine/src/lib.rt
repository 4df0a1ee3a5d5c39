//! The reset machine: configurations of the distributed reset service as values, with their steps, runs
//! and views. What a step is, and the laws of it, come from `reset_model` and are passed on.
#![tactic(auto)]

mod action;
mod commands;
mod config;
mod enabled;
mod node_view;
mod nodes;
mod place;
mod plan;
mod ready;
mod ready_set;
mod renewal;
mod view;

pub use config::Config;
pub use enabled::Enabled;
pub use reset_model::{
    Done, Event, Near, Plan, Reply, StepRefusal, View, completions_are_true, headline, mends_rest,
    no_step_is_refused, one_boot, one_event_a_line, outcomes_are_steps, read_event, runs_are_steps,
    runs_stay_sound, sound_is_quiet, split_wave_event, split_word, states_stay, steps_stay_sound,
    two_numbers, views_decide, wave_pictures, word_and_neighbour, write_event,
};
