// What is told of a link between routing tables.

use crate::texts::fault_at;
use action_tables::print_rows;
use app_routes::{Routes, link_rows};
use std::test::Fail;

#[test]
fn finds_faults_on_a_link(rt: HostRuntime) -> Result<(), Fail> {
    for (own, theirs, fault) in [
        // Over node 2 to 3, for which it has no entry.
        (b"1:0:1,3:2:2".as_slice(), b"2:0:2".as_slice(), Some(1)),
        (b"3:1:2".as_slice(), b"-".as_slice(), Some(1)),
        // Over node 2, which has as many hops, or more.
        (b"3:2:2".as_slice(), b"3:2:9".as_slice(), Some(2)),
        (b"3:2:2".as_slice(), b"2:0:2,3:7:9".as_slice(), Some(2)),
        (b"3:1:2".as_slice(), b"3:1:3".as_slice(), Some(2)),
        (
            b"3:4294967295:2".as_slice(),
            b"3:4294967295:1".as_slice(),
            Some(2),
        ),
        // Of several entries one is at fault, the last here and the first there.
        (
            b"2:1:2,3:2:2,4:3:2".as_slice(),
            b"2:0:2,3:1:3".as_slice(),
            Some(1),
        ),
        (
            b"2:1:2,3:2:2".as_slice(),
            b"2:1:1,3:1:3".as_slice(),
            Some(2),
        ),
        // Both rows fail, whichever entry comes first.
        (b"3:2:2,4:2:2".as_slice(), b"3:2:9".as_slice(), Some(1)),
        (b"3:2:2,4:2:2".as_slice(), b"4:2:9".as_slice(), Some(1)),
    ] {
        assert!(rt; fault_at::<Routes>(rt.alloc(), 1, own, 2, theirs)? == fault);
    }
    Ok(())
}

#[test]
fn passes_a_good_link(rt: HostRuntime) -> Result<(), Fail> {
    for (own, theirs) in [
        (b"-".as_slice(), b"-".as_slice()),
        (b"1:0:1".as_slice(), b"2:0:2".as_slice()),
        (
            b"1:0:1,2:1:2,3:2:2".as_slice(),
            b"1:1:1,2:0:2,3:1:3".as_slice(),
        ),
        // The neighbour has become nearer since.
        (b"3:7:2".as_slice(), b"3:0:3".as_slice()),
        // Over another neighbour, and a way of no hops.
        (b"3:2:4".as_slice(), b"2:0:2".as_slice()),
        (b"3:2:4".as_slice(), b"3:5:9".as_slice()),
        (b"3:0:2".as_slice(), b"-".as_slice()),
        (b"3:0:2".as_slice(), b"3:1:3".as_slice()),
        // An entry of the other's is told at its end alone.
        (b"-".as_slice(), b"3:2:1".as_slice()),
    ] {
        assert!(rt; fault_at::<Routes>(rt.alloc(), 1, own, 2, theirs)?.is_none());
    }
    Ok(())
}

#[test]
fn prints_its_link_table(rt: HostRuntime) -> Result<(), Fail> {
    let mut out = Vec::new(rt.alloc());
    assert!(rt; print_rows("routes-links", &link_rows(), &mut out).is_ok());
    assert!(rt;
        out.as_slice()
            == b"table routes-links\n\
            1 no-entry | own entry (d, h, other) with h > 0, other has no entry for d | fault\n\
            2 not-nearer | own entry (d, h, other) with h > 0, other's entry for d has more than h - 1 hops | fault\n"
                .as_slice()
    );
    Ok(())
}
