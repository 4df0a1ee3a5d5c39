// Ways are learned over the line 1, 2, 3.

use crate::texts::{self, is_bad, names_cases, reads_back, refuses, takes_steps, tells_apart};
use app_interface::Reads;
use app_routes::Routes;
use std::test::Fail;

#[test]
fn starts(rt: HostRuntime) -> Result<(), Fail> {
    texts::starts::<Routes>(&rt, rt.alloc(), ["1:0:1", "2:0:2", "3:0:3"])
}

#[test]
fn learns_the_line(rt: HostRuntime) -> Result<(), Fail> {
    let steps = [
        (2, 1, Some(3), "2:0:2", Some((3, "3:0:3")), "2:0:2,3:1:3"),
        (2, 1, Some(3), "2:0:2,3:1:3", Some((3, "3:0:3")), ""),
        (
            1,
            1,
            Some(2),
            "1:0:1",
            Some((2, "2:0:2,3:1:3")),
            "1:0:1,2:1:2,3:2:2",
        ),
        (
            1,
            1,
            Some(2),
            "1:0:1,2:1:2,3:2:2",
            Some((2, "2:0:2,3:1:3")),
            "",
        ),
        (
            1,
            1,
            Some(2),
            "7:2:9",
            Some((2, "1:1:1,7:0:7")),
            "1:2:2,7:1:2",
        ),
    ];
    takes_steps::<Routes>(&rt, rt.alloc(), &steps)
}

#[test]
fn tells_local_states_apart(rt: HostRuntime) -> Result<(), Fail> {
    let others = [
        ("2:0:2,5:3:4", true),
        ("2:0:2", false),
        ("2:0:2,5:3:3", false),
        ("2:0:2,5:2:4", false),
        ("2:0:2,6:3:4", false),
        ("2:0:2,5:3:4,6:3:4", false),
    ];
    tells_apart::<Routes>(&rt, rt.alloc(), "2:0:2,5:3:4", &others)
}

#[test]
fn reads_what_it_shows(rt: HostRuntime) -> Result<(), Fail> {
    let texts = [
        "-",
        "1:0:1",
        "1:0:1,3:2:2",
        "9:4294967295:65535",
        "1:1:9,2:2:9,3:3:9,10:4:9,100:5:9,65535:10:9",
    ];
    reads_back::<Routes>(&rt, rt.alloc(), &texts)
}

#[test]
fn refuses_other_texts(rt: HostRuntime) {
    let texts = [
        "",
        "1",
        "1:0",
        "1:0:",
        "1:0:1:1",
        ":0:1",
        "1::1",
        "1:0:1,",
        ",1:0:1",
        "1:0:1,,2:1:2",
        "2:0:2,1:0:1",
        "1:0:1,1:1:1",
        "0:0:1",
        "1:0:0",
        "65536:0:1",
        "1:0:65536",
        "4294967297:0:1",
        "1:4294967296:1",
        "01:0:1",
        "1:00:1",
        "1:0:01",
        "1:+0:1",
        "1:-1:1",
        "1:0:1 ",
        " 1:0:1",
        "1:0:1, 2:1:2",
        "1:0:1\n",
        "1;0;1",
        "1:0:1;2:1:2",
        "-,1:0:1",
        "1:0:1,-",
        "--",
        "1:x:1",
    ];
    refuses::<Routes>(&rt, rt.alloc(), &texts);
    assert!(rt; is_bad::<Routes>(rt.alloc(), b"1:0:1\xff"));
}

#[test]
fn names_its_cases(rt: HostRuntime) {
    let cases = [
        (0, None, None),
        (1, Some("pull"), Some(Reads::One)),
        (2, None, None),
    ];
    names_cases::<Routes>(&rt, 1, &cases);
}
