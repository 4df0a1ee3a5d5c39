// What the tests do with a configuration. There is memory for it.

use crate::assert_equal;
use app_interface::Application;
use reset_machine::{Config, Done, Event, Reply, StepRefusal};
use std::alloc::Global;
use std::process::Abort;

// Does the steps, none of which completes a session.
pub(crate) fn applies<P: Application>(
    rt: &impl Abort,
    alloc: Global,
    config: &mut Config<P>,
    steps: &[Event],
) {
    for (place, step) in steps.iter().enumerate() {
        assert_eq!(rt;
            config.step(alloc, *step),
            Ok(Reply::Applied),
            "step {place}"
        );
    }
}

// Does the steps, of which the last completes this session.
pub(crate) fn completes<P: Application>(
    rt: &impl Abort,
    alloc: Global,
    config: &mut Config<P>,
    steps: &[Event],
    session: u32,
) {
    for (place, step) in steps.iter().enumerate() {
        let reply = if place + 1 == steps.len() {
            Reply::Complete(session)
        } else {
            Reply::Applied
        };
        assert_eq!(rt; config.step(alloc, *step), Ok(reply), "step {place}");
    }
}

// Does the step, which is refused.
pub(crate) fn refuses<P: Application>(
    rt: &impl Abort,
    alloc: Global,
    config: &mut Config<P>,
    step: Event,
    refusal: StepRefusal,
) {
    assert_eq!(rt; config.step(alloc, step), Err(refusal), "{step:?}");
}

// What comes of the steps.
pub(crate) fn ran<P: Application>(
    rt: &impl Abort,
    alloc: Global,
    config: &mut Config<P>,
    steps: &[Event],
) -> Vec<Done> {
    match config.run(alloc, steps) {
        Ok(answers) => answers,
        Err(_) => panic!(rt; "memory for the answers"),
    }
}

pub(crate) fn copied<P: Application>(
    rt: &impl Abort,
    alloc: Global,
    config: &Config<P>,
) -> Config<P> {
    match config.copy(alloc) {
        Ok(copy) => copy,
        Err(_) => panic!(rt; "memory for a copy"),
    }
}
