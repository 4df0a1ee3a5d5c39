use crate::assert_equal;
use crate::machine::line;
use crate::steps::applies;
use crate::told::seen;
use app_interface::Idle;
use reset_machine::{Config, Event, Plan, Reply, StepRefusal, View};
use std::alloc::Global;
use std::process::Abort;
use wave_layer::Phase;

// The plan of an event that its node can do.
pub(crate) fn planned(
    rt: &impl Abort,
    alloc: Global,
    config: &Config<Idle>,
    event: Event,
) -> Plan<Idle> {
    match seen(rt, alloc, config, event.node()).plan(alloc, event) {
        Ok(plan) => plan,
        Err(_) => panic!(rt; "a plan"),
    }
}

// How the view refuses the event, if it does.
fn refusal(alloc: Global, view: &View<Idle>, event: Event) -> Option<StepRefusal> {
    match view.plan(alloc, event) {
        Ok(_) => None,
        Err(refusal) => Some(refusal),
    }
}

// Whether the node asks for a reset.
fn asks(rt: &impl Abort, config: &Config<Idle>, id: u32, expected: bool) {
    let asks = config
        .wave_at(id)
        .is_some_and(|regs| regs.phase == Phase::Initiate);
    assert_eq!(rt; asks, expected, "node {id}");
}

// The plan is that of an event that is applied, and was made on this view.
fn is_planned(rt: &impl Abort, plan: &Plan<Idle>, event: Event, view: &View<Idle>) {
    assert_equal(rt, plan.event(), event);
    assert_equal(rt, plan.reply(), Reply::Applied);
    assert!(rt; plan.seen_view().same(view));
}

// Puts the plan of an event that is applied.
pub(crate) fn puts(rt: &impl Abort, config: &mut Config<Idle>, plan: Plan<Idle>) {
    match config.put_plan(plan) {
        Ok(reply) => assert_equal(rt, reply, Reply::Applied),
        Err(_) => panic!(rt; "its node sees the same"),
    }
}

// The plan comes back, as it was made on this view.
pub(crate) fn returns(
    rt: &impl Abort,
    config: &mut Config<Idle>,
    plan: Plan<Idle>,
    view: &View<Idle>,
) {
    match config.put_plan(plan) {
        Ok(_) => panic!(rt; "its node sees something else"),
        Err(plan) => assert!(rt; plan.seen_view().same(view)),
    }
}

#[test]
fn a_plan_is_put_where_its_node_sees_the_same(rt: HostRuntime) {
    let mut config = line(&rt, rt.alloc());
    let view = seen(&rt, rt.alloc(), &config, 1);
    let request = Event::Request { at: 1 };
    let plan = planned(&rt, rt.alloc(), &config, request);
    is_planned(&rt, &plan, request, &view);
    asks(&rt, &config, 1, false);
    puts(&rt, &mut config, plan);
    asks(&rt, &config, 1, true);
    drop(view);
    drop(config);
}

#[test]
fn a_plan_comes_back_where_its_node_sees_something_else(rt: HostRuntime) {
    let mut config = line(&rt, rt.alloc());
    let view = seen(&rt, rt.alloc(), &config, 2);
    let plan = planned(&rt, rt.alloc(), &config, Event::Request { at: 2 });
    // Node 1 is a neighbour of node 2.
    applies(&rt, rt.alloc(), &mut config, &[Event::Request { at: 1 }]);
    returns(&rt, &mut config, plan, &view);
    asks(&rt, &config, 2, false);
    drop(view);
    drop(config);
}

#[test]
fn a_view_refuses_what_its_node_cannot_do(rt: HostRuntime) {
    let config = line(&rt, rt.alloc());
    let view = seen(&rt, rt.alloc(), &config, 2);
    let act = |with| Event::Act {
        at: 2,
        case: 1,
        with,
    };
    let refused = [
        (Event::Request { at: 1 }, StepRefusal::StrangeNode),
        (
            Event::Relay { at: 2, child: 2 },
            StepRefusal::StrangeNeighbour,
        ),
        (Event::Relay { at: 2, child: 1 }, StepRefusal::NotEnabled),
        (Event::Claim { at: 2 }, StepRefusal::NotEnabled),
        (Event::Adopt { at: 2, from: 1 }, StepRefusal::NotEnabled),
        (act(None), StepRefusal::NoSuchCase),
        (act(Some(4)), StepRefusal::StrangeNeighbour),
    ];
    for (event, why) in refused {
        assert_equal(&rt, refusal(rt.alloc(), &view, event), Some(why));
    }
    drop(view);
    drop(config);
}
