// What is told of a link in neighbour exclusion. The turn is the lesser's where the bits are equal.

use crate::texts::fault_at;
use action_tables::print_rows;
use app_mutex::{EdgeReversal, link_rows};
use std::test::Fail;

#[test]
fn finds_faults_on_a_link(rt: HostRuntime) -> Result<(), Fail> {
    for (id, own, other, theirs, fault) in [
        // Both are in, and the turn is own.
        (1, b"in/0".as_slice(), 2, b"in/0".as_slice(), Some(1)),
        (2, b"in/0".as_slice(), 1, b"in/1".as_slice(), Some(1)),
        // Own is in alone, and the turn is the other's.
        (1, b"in/0".as_slice(), 2, b"out/1".as_slice(), Some(2)),
        (2, b"in/1".as_slice(), 1, b"out/1".as_slice(), Some(2)),
        // Both rows fail.
        (1, b"in/1".as_slice(), 2, b"in/0".as_slice(), Some(1)),
        (2, b"in/0".as_slice(), 1, b"in/0".as_slice(), Some(1)),
    ] {
        assert!(rt;
            fault_at::<EdgeReversal>(rt.alloc(), id, own, other, theirs)? == fault,
            "node {id}"
        );
    }
    Ok(())
}

#[test]
fn passes_a_good_link(rt: HostRuntime) -> Result<(), Fail> {
    for (id, own, other, theirs) in [
        // Own is in with its turn.
        (1, b"in/1".as_slice(), 2, b"out/1".as_slice()),
        (2, b"in/0".as_slice(), 1, b"out/1".as_slice()),
        // The other is in with its turn.
        (1, b"out/0".as_slice(), 2, b"in/1".as_slice()),
        // The other is in without it, which is told at its end alone.
        (1, b"out/0".as_slice(), 2, b"in/0".as_slice()),
        // Nobody is in.
        (1, b"out/0".as_slice(), 2, b"out/0".as_slice()),
        (2, b"out/0".as_slice(), 1, b"out/0".as_slice()),
        (2, b"out/1".as_slice(), 1, b"out/0".as_slice()),
    ] {
        assert!(rt;
            fault_at::<EdgeReversal>(rt.alloc(), id, own, other, theirs)?.is_none(),
            "node {id}"
        );
    }
    Ok(())
}

#[test]
fn prints_its_link_table(rt: HostRuntime) -> Result<(), Fail> {
    let mut out = Vec::new(rt.alloc());
    assert!(rt; print_rows("mutex-links", &link_rows(), &mut out).is_ok());
    assert!(rt;
        out.as_slice()
            == b"table mutex-links\n\
            1 two-in | own is in, other is in | fault\n\
            2 no-turn | own is in, the turn is the other's | fault\n"
                .as_slice()
    );
    Ok(())
}
