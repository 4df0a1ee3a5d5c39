// The alarm, and what an operator sees of it.

use crate::networks::{alarms, booted_line, fault, finds, put_text, two_are_in};
use app_mutex::EdgeReversal;
use link_predicates::Family;

#[test]
fn two_neighbours_that_are_in_raise_the_alarm(rt: HostRuntime) {
    let config = two_are_in(&rt, rt.alloc());
    let told = [fault(1, 2, Family::App, 1), fault(2, 1, Family::App, 1)];
    alarms(&rt, &config, 1, Some(told[0]));
    alarms(&rt, &config, 2, Some(told[1]));
    alarms(&rt, &config, 3, None);
    finds(&rt, rt.alloc(), &config, &told);
    drop(config);
}

// Node 2 is in without the turn of either link: the first in order is told.
#[test]
fn the_first_fault_is_told(rt: HostRuntime) {
    let mut config = booted_line::<EdgeReversal>(&rt, rt.alloc());
    put_text(&rt, rt.alloc(), &mut config, 2, b"in/0");
    put_text(&rt, rt.alloc(), &mut config, 3, b"out/1");
    alarms(&rt, &config, 2, Some(fault(2, 1, Family::App, 2)));
    drop(config);
}

#[test]
fn a_quiet_network_has_no_alarm(rt: HostRuntime) {
    let config = booted_line::<EdgeReversal>(&rt, rt.alloc());
    for id in [1, 2, 3, 9] {
        alarms(&rt, &config, id, None);
    }
    drop(config);
}

#[test]
fn the_names_of_the_families(rt: HostRuntime) {
    let names = [Family::Tree.name(), Family::Wave.name(), Family::App.name()];
    assert_eq!(rt; names, ["tree", "wave", "app"]);
}
