// The turns of the line 1, 2, 3, and of several components. The turn of a link is the lesser's where the bits are equal.

use crate::told::tells;
use app_mutex::EdgeReversal;
use std::test::Fail;

const ONE: &str = "in without its turn 1";

const TWO: &str = "in without its turn 2";

#[test]
fn counts_who_is_in_without_its_turns(rt: HostRuntime) -> Result<(), Fail> {
    let cases = [
        (
            ["out/0", "out/0", "out/0"].as_slice(),
            ["holds"; 3].as_slice(),
        ),
        (&["in/0", "out/0", "out/0"], &["holds"; 3]),
        (&["in/0", "out/0", "in/1"], &["holds"; 3]),
        (&["out/0", "in/1", "out/1"], &["holds"; 3]),
        // Node 2 lacks the turn of its one link, of the other, and of both.
        (&["out/0", "in/0", "out/0"], &[ONE; 3]),
        (&["out/0", "in/1", "out/0"], &[ONE; 3]),
        (&["out/1", "in/1", "out/0"], &[ONE; 3]),
        // Neighbours that are in: one of the two lacks the turn.
        (&["in/0", "in/0", "out/0"], &[ONE; 3]),
        (&["in/1", "in/0", "out/0"], &[ONE; 3]),
        (&["in/0", "in/0", "in/0"], &[TWO; 3]),
    ];
    tells::<EdgeReversal>(&rt, rt.alloc(), &[1, 2, 3], &[(1, 2), (2, 3)], &cases)
}

#[test]
fn counts_each_component(rt: HostRuntime) -> Result<(), Fail> {
    let cases = [(
        ["in/0", "out/0", "in/0", "in/0", "in/1"].as_slice(),
        ["holds", "holds", ONE, ONE, "holds"].as_slice(),
    )];
    tells::<EdgeReversal>(&rt, rt.alloc(), &[1, 2, 3, 4, 5], &[(1, 2), (3, 4)], &cases)
}
