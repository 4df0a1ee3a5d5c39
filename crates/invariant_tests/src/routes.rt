// The routes of lines, rings and several components. On a line and on a ring of four a walk has as many links as the
// distance, or an even number more; on a ring of five there is a walk of each parity.

use crate::told::{tells, tells_on};
use app_routes::Routes;
use std::test::Fail;
use topology::Topology;

const ONE: &str = "routes without a way 1";

const THREE: &str = "routes without a way 3";

#[test]
fn finds_ways_on_a_line(rt: HostRuntime) -> Result<(), Fail> {
    let cases = [
        (
            ["1:0:1", "2:0:2", "3:0:3"].as_slice(),
            ["holds"; 3].as_slice(),
        ),
        (&["-", "-", "-"], &["holds"; 3]),
        (
            &[
                "1:0:1,2:1:2,3:2:2",
                "1:1:1,2:0:2,3:1:3",
                "1:2:2,2:1:2,3:0:3",
            ],
            &["holds"; 3],
        ),
        // A walk may go back and forth, but not by one link.
        (&["3:4:2", "3:1:3", "3:0:3"], &["holds"; 3]),
        (&["3:3:2", "3:1:3", "3:0:3"], &[ONE; 3]),
        (&["2:4294967295:2", "2:0:2", "-"], &["holds"; 3]),
        (&["2:4294967294:2", "2:0:2", "-"], &[ONE; 3]),
        (&["1:1:1,2:2:2,3:3:2", "2:0:2,3:1:3", "3:0:3"], &[THREE; 3]),
    ];
    tells::<Routes>(&rt, rt.alloc(), &[1, 2, 3], &[(1, 2), (2, 3)], &cases)
}

#[test]
fn looks_at_the_next_node(rt: HostRuntime) -> Result<(), Fail> {
    let cases = [
        // No neighbour, one without an entry, and one that is no nearer.
        (["3:2:3", "3:1:3", "3:0:3"].as_slice(), [ONE; 3].as_slice()),
        (&["3:2:2", "2:0:2", "3:0:3"], &[ONE; 3]),
        (&["3:2:2", "3:3:3", "3:0:3"], &[ONE; 3]),
        // Of a way of no links the next node isn't asked.
        (&["1:0:3", "2:0:9", "-"], &["holds"; 3]),
        // To another node, to itself over a neighbour that it is the next node of, and to what is no node.
        (&["2:0:2", "-", "-"], &[ONE; 3]),
        (&["1:2:2", "1:1:1", "-"], &[ONE; 3]),
        (&["9:1:2", "9:0:9", "-"], &["routes without a way 2"; 3]),
    ];
    tells::<Routes>(&rt, rt.alloc(), &[1, 2, 3], &[(1, 2), (2, 3)], &cases)
}

#[test]
fn tells_rings_apart(rt: HostRuntime) -> Result<(), Fail> {
    let links = [(1, 2), (2, 3), (3, 4), (4, 1)];
    let cases = [
        (
            ["3:4:2", "3:1:3", "3:0:3", "3:1:3"].as_slice(),
            ["holds"; 4].as_slice(),
        ),
        (&["3:3:2", "3:1:3", "3:0:3", "3:1:3"], &[ONE; 4]),
    ];
    tells::<Routes>(&rt, rt.alloc(), &[1, 2, 3, 4], &links, &cases)?;
    let links = [(1, 2), (2, 3), (3, 4), (4, 5), (5, 1)];
    let cases = [
        (
            ["3:3:2", "3:1:3", "3:0:3", "-", "-"].as_slice(),
            ["holds"; 5].as_slice(),
        ),
        (
            &["2:4:5", "2:0:2", "2:1:2", "2:2:3", "2:3:4"],
            &["holds"; 5],
        ),
        (&["2:2:2", "2:0:2", "-", "-", "-"], &[ONE; 5]),
    ];
    tells::<Routes>(&rt, rt.alloc(), &[1, 2, 3, 4, 5], &links, &cases)
}

#[test]
fn counts_each_component(rt: HostRuntime) -> Result<(), Fail> {
    let cases = [
        (
            ["4:2:2", "4:1:3", "-", "4:0:4", "4:1:4", "6:0:6"].as_slice(),
            [
                "routes without a way 2",
                "routes without a way 2",
                "routes without a way 2",
                "holds",
                "holds",
                "holds",
            ]
            .as_slice(),
        ),
        // A node without links has no walk of some.
        (
            &["-", "-", "-", "-", "-", "6:2:6"],
            &["holds", "holds", "holds", "holds", "holds", ONE],
        ),
    ];
    let links = [(1, 2), (2, 3), (4, 5)];
    tells::<Routes>(&rt, rt.alloc(), &[1, 2, 3, 4, 5, 6], &links, &cases)
}

#[test]
fn leads_nowhere_over_what_is_down(rt: HostRuntime) -> Result<(), Fail> {
    let line = Topology::build(rt.alloc(), &[1, 2, 3], &[(1, 2), (2, 3)])?;
    let parted = line.without_node(rt.alloc(), 2)?;
    let cases = [(
        ["1:0:1,2:1:2", "2:0:2", "3:0:3"].as_slice(),
        [ONE, "holds"].as_slice(),
    )];
    tells_on::<Routes>(&rt, rt.alloc(), &parted, &cases)
}
