// Nodes enter and leave by turns.

use crate::texts::{self, is_bad, names_cases, reads_back, refuses, takes_steps, tells_apart};
use app_interface::Reads;
use app_mutex::EdgeReversal;
use std::test::Fail;

#[test]
fn starts(rt: HostRuntime) -> Result<(), Fail> {
    texts::starts::<EdgeReversal>(&rt, rt.alloc(), ["out/0", "out/0", "out/0"])
}

#[test]
fn hands_the_turns_on(rt: HostRuntime) -> Result<(), Fail> {
    let steps = [
        (1, 1, None, "out/0", Some((2, "out/0")), "in/0"),
        (3, 1, None, "out/0", Some((2, "out/0")), ""),
        (1, 2, None, "in/0", None, "out/1"),
        (1, 1, None, "out/1", Some((2, "out/0")), ""),
        (2, 1, None, "out/0", Some((1, "out/1")), "in/0"),
        (7, 2, None, "in/1", None, "out/0"),
    ];
    takes_steps::<EdgeReversal>(&rt, rt.alloc(), &steps)
}

#[test]
fn tells_local_states_apart(rt: HostRuntime) -> Result<(), Fail> {
    let others = [
        ("in/0", true),
        ("in/1", false),
        ("out/0", false),
        ("out/1", false),
    ];
    tells_apart::<EdgeReversal>(&rt, rt.alloc(), "in/0", &others)
}

#[test]
fn reads_what_it_shows(rt: HostRuntime) -> Result<(), Fail> {
    let texts = ["out/0", "out/1", "in/0", "in/1"];
    reads_back::<EdgeReversal>(&rt, rt.alloc(), &texts)
}

#[test]
fn refuses_other_texts(rt: HostRuntime) {
    let texts = [
        "", "in", "in/", "/0", "in/2", "In/0", "OUT/1", "out/00", "in/0/", " in/0", "in/0 ",
        "in/0\n", "inside/0", "out 0",
    ];
    refuses::<EdgeReversal>(&rt, rt.alloc(), &texts);
    assert!(rt; is_bad::<EdgeReversal>(rt.alloc(), b"in/\xff"));
}

#[test]
fn names_its_cases(rt: HostRuntime) {
    let cases = [
        (0, None, None),
        (1, Some("enter"), Some(Reads::All)),
        (2, Some("leave"), Some(Reads::Alone)),
        (3, None, None),
    ];
    names_cases::<EdgeReversal>(&rt, 2, &cases);
}
