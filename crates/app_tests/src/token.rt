// The token passes over the line 1, 2, 3.

use crate::texts::{
    self, fault_at, is_bad, names_cases, reads_back, refuses, takes_steps, tells_apart,
};
use app_interface::Reads;
use app_token::Token;
use std::test::Fail;
use topology::Topology;

#[test]
fn starts(rt: HostRuntime) -> Result<(), Fail> {
    texts::starts::<Token>(&rt, rt.alloc(), ["free/-/-", "free/-/-", "hold/-/-"])
}

#[test]
fn each_component_starts_with_a_token(rt: HostRuntime) -> Result<(), Fail> {
    // the lines 1, 4, 2 and 3, 5, and node 6 alone
    let links = [(1, 4), (4, 2), (3, 5)];
    let parted = Topology::build(rt.alloc(), &[1, 2, 3, 4, 5, 6], &links)?;
    let (holds, free) = ("hold/-/-", "free/-/-");
    texts::starts_on::<Token>(
        &rt,
        rt.alloc(),
        &parted,
        &[free, free, free, holds, holds, holds],
    )
}

#[test]
fn passes_the_token_and_takes_it(rt: HostRuntime) -> Result<(), Fail> {
    let steps = [
        (3, 1, Some(2), "hold/-/-", None, "free/2/-"),
        (2, 2, Some(3), "free/-/-", Some((3, "free/2/-")), "hold/-/3"),
        (2, 2, Some(3), "hold/-/3", Some((3, "free/2/-")), ""),
        (7, 1, Some(5), "hold/1,2,5,9,12/3", None, "free/1,2,9,12/3"),
        (
            7,
            2,
            Some(2),
            "free/8/9",
            Some((2, "free/7,99/98")),
            "hold/8/2,9",
        ),
    ];
    takes_steps::<Token>(&rt, rt.alloc(), &steps)
}

#[test]
fn finds_faults_on_a_link(rt: HostRuntime) -> Result<(), Fail> {
    for (at_4, at_7, row) in [
        // none holds, one does, or a bit is in flight, whatever the bits of other links
        ("free/-/-", "free/-/-", None),
        ("hold/2,9/3", "free/5/8", None),
        ("hold/7/7", "free/4/4", None),
        ("hold/4/4", "free/7/7", None),
        ("free/7/-", "free/-/-", None),
        ("free/-/7", "free/-/-", None),
        // each row alone
        ("hold/-/-", "hold/-/-", Some(1)),
        ("hold/7/-", "hold/-/4", Some(1)),
        ("hold/7/-", "free/-/-", Some(2)),
        ("hold/-/7", "free/-/-", Some(2)),
        ("free/7/-", "hold/-/-", Some(2)),
        ("free/-/-", "hold/4/-", Some(2)),
        ("free/7/-", "free/4/-", Some(3)),
        ("free/-/7", "free/-/4", Some(3)),
        ("free/7/7", "free/-/-", Some(3)),
        // the least of several
        ("hold/7/-", "hold/-/-", Some(1)),
        ("hold/7/-", "free/4/-", Some(2)),
        ("hold/7/-", "hold/4/-", Some(1)),
    ] {
        for (id, own, other, theirs) in [(4, at_4, 7, at_7), (7, at_7, 4, at_4)] {
            assert!(rt;
                fault_at::<Token>(rt.alloc(), id, own.as_bytes(), other, theirs.as_bytes())? == row,
                "{own} at {id}, {theirs} at {other}"
            );
        }
    }
    Ok(())
}

#[test]
fn tells_local_states_apart(rt: HostRuntime) -> Result<(), Fail> {
    let others = [
        ("free/2,5/3", true),
        ("hold/2,5/3", false),
        ("free/2/3", false),
        ("free/2,5/3,4", false),
    ];
    tells_apart::<Token>(&rt, rt.alloc(), "free/2,5/3", &others)
}

#[test]
fn reads_what_it_shows(rt: HostRuntime) -> Result<(), Fail> {
    let texts = [
        "hold/-/-",
        "free/2,5/3",
        "free/-/65535",
        "free/2,3/2,3",
        "hold/1,2,3,4,5,6/1,10,100,1000,10000",
    ];
    reads_back::<Token>(&rt, rt.alloc(), &texts)
}

#[test]
fn refuses_other_texts(rt: HostRuntime) {
    let texts = [
        "",
        "hold",
        "hold/-",
        "hold/-/-/-",
        "hold/-/-/",
        "/-/-",
        "hold//-",
        "hold/-/",
        "//",
        "Hold/-/-",
        "FREE/-/-",
        "held/-/-",
        " hold/-/-",
        "hold/ -/-",
        "hold/-/- ",
        "hold/-/-\n",
        "hold/2,1/-",
        "hold/-/2,1",
        "hold/1,1/-",
        "hold/-/1,1",
        "hold/0/-",
        "hold/-/0",
        "hold/65536/-",
        "hold/-/65536",
        "free/2,,5/3",
        "free/2,5,/3",
        "free/,2,5/3",
        "free/2, 5/3",
        "free/2;5/3",
        "free/-,2/3",
        "free/2,-/3",
        "free/--/3",
        "free/4294967297/3",
        "free/02/3",
        "free/+2/3",
        "free/-2/3",
        "free/2a/3",
    ];
    refuses::<Token>(&rt, rt.alloc(), &texts);
    assert!(rt; is_bad::<Token>(rt.alloc(), b"free/2/\xff"));
}

#[test]
fn names_its_cases(rt: HostRuntime) {
    let cases = [
        (0, None, None),
        (1, Some("pass"), Some(Reads::Toward)),
        (2, Some("take"), Some(Reads::One)),
        (3, None, None),
    ];
    names_cases::<Token>(&rt, 2, &cases);
}
