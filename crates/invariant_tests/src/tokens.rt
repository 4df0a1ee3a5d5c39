// The tokens of the line 1, 2, 3, and of several components.

use crate::told::{tells, tells_on};
use app_token::Token;
use std::test::Fail;
use topology::Topology;

const FREE: &str = "free/-/-";

const HOLD: &str = "hold/-/-";

#[test]
fn counts_holders(rt: HostRuntime) -> Result<(), Fail> {
    let cases = [
        ([FREE, HOLD, FREE].as_slice(), ["holds"; 3].as_slice()),
        (&[FREE, FREE, FREE], &["tokens 0"; 3]),
        (&[HOLD, FREE, HOLD], &["tokens 2"; 3]),
        (&[HOLD, HOLD, HOLD], &["tokens 3"; 3]),
    ];
    tells::<Token>(&rt, rt.alloc(), &[1, 2, 3], &[(1, 2), (2, 3)], &cases)
}

#[test]
fn counts_flights(rt: HostRuntime) -> Result<(), Fail> {
    let cases = [
        // From 1 to 2, and taken there.
        (["free/2/-", FREE, FREE].as_slice(), ["holds"; 3].as_slice()),
        (&["free/2/-", "hold/-/1", FREE], &["holds"; 3]),
        // A bit that differs the other way is in flight too.
        (&["free/-/-", "free/-/1", FREE], &["holds"; 3]),
        // In both directions, and beside one that is held.
        (&["free/2/-", "free/1/-", FREE], &["tokens 2"; 3]),
        (&["hold/2/-", FREE, FREE], &["tokens 2"; 3]),
        (&["free/2/-", "hold/-/-", FREE], &["tokens 2"; 3]),
        (&["free/2/-", "hold/3/-", "hold/2/-"], &["tokens 5"; 3]),
        // Where there is no link there is no flight.
        (&["hold/3/3", FREE, FREE], &["holds"; 3]),
    ];
    tells::<Token>(&rt, rt.alloc(), &[1, 2, 3], &[(1, 2), (2, 3)], &cases)
}

#[test]
fn counts_each_component(rt: HostRuntime) -> Result<(), Fail> {
    let links = [(1, 4), (4, 2), (3, 5)];
    let cases = [
        (
            [HOLD, FREE, HOLD, FREE, FREE, HOLD].as_slice(),
            ["holds"; 6].as_slice(),
        ),
        (
            &[HOLD, HOLD, FREE, FREE, FREE, HOLD],
            &[
                "tokens 2", "tokens 2", "tokens 0", "tokens 2", "tokens 0", "holds",
            ],
        ),
    ];
    tells::<Token>(&rt, rt.alloc(), &[1, 2, 3, 4, 5, 6], &links, &cases)
}

#[test]
fn passes_over_what_is_down(rt: HostRuntime) -> Result<(), Fail> {
    let line = Topology::build(rt.alloc(), &[1, 2, 3], &[(1, 2), (2, 3)])?;
    let parted = line.without_node(rt.alloc(), 2)?;
    let cases = [(
        ["hold/2/-", "hold/1,3/-", "free/-/-"].as_slice(),
        ["holds", "tokens 0"].as_slice(),
    )];
    tells_on::<Token>(&rt, rt.alloc(), &parted, &cases)
}
