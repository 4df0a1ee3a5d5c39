// What is written, on writers that take it in pieces and on writers that fail.

use crate::assert_equal;
use action_tables::{
    CaseRow, CaseSet, Part, WriteFault, print_rows, put_bytes, put_list, put_number, put_parts,
};
use std::alloc::AllocGlobal;
use std::process::Abort;
use std::test::Fail;
use test_devices::{FailingWriter, Fault};

// What comes of "hello" on this writer: the answer, the bytes taken, and the number of its calls.
fn writes_hello(
    rt: &impl Abort,
    mut out: FailingWriter,
    done: Result<(), WriteFault>,
    taken: &[u8],
    calls: usize,
) {
    assert_equal(rt, put_bytes(&mut out, b"hello"), done);
    assert_equal(rt, out.taken(), taken);
    assert_equal(rt, out.writes(), calls);
}

#[test]
fn writes_all_bytes_in_pieces(rt: HostRuntime) {
    for (step, calls) in [(1, 5), (2, 3), (9, 1)] {
        let out = FailingWriter::new(rt.alloc(), step, 0, Fault::Error);
        writes_hello(&rt, out, Ok(()), b"hello", calls);
    }
}

#[test]
fn writes_no_bytes_without_a_call(rt: HostRuntime) {
    let mut out = FailingWriter::new(rt.alloc(), 1, 1, Fault::Error);
    assert_equal(&rt, put_bytes(&mut out, b""), Ok(()));
    assert_equal(&rt, out.writes(), 0);
}

#[test]
fn tries_nothing_again(rt: HostRuntime) {
    for fault in [Fault::Error, Fault::Zero] {
        for stop in 1..=5 {
            let out = FailingWriter::new(rt.alloc(), 1, stop, fault);
            writes_hello(&rt, out, Err(WriteFault), &b"hello"[..stop - 1], stop);
        }
    }
}

#[test]
fn writes_numbers(rt: HostRuntime) -> Result<(), Fail> {
    let mut out = Vec::new(rt.alloc());
    for number in [0, 7, 10, 100, u64::MAX] {
        assert_equal(&rt, put_number(&mut out, number), Ok(()));
        assert_equal(&rt, put_bytes(&mut out, b";"), Ok(()));
    }
    let expected = b"0;7;10;100;18446744073709551615;";
    assert_equal(&rt, out.as_slice(), expected.as_slice());
    Ok(())
}

const ROW: CaseRow<'static> = CaseRow {
    number: 12,
    name: "rest",
    guard: "tired",
    effect: "sleep",
};

// A writer that fails at the call `stop` has taken these bytes of the table of the row.
fn row_stops_at(rt: &(impl Abort + AllocGlobal), fault: Fault, stop: usize, taken: &[u8]) {
    let mut out = FailingWriter::new(rt.alloc(), 1, stop, fault);
    assert_equal(rt, print_rows("day", &[ROW], &mut out), Err(WriteFault));
    assert_equal(rt, out.taken(), taken);
}

#[test]
fn stops_at_the_first_fault(rt: HostRuntime) {
    let text = b"table day\n12 rest | tired | sleep\n";
    let mut out = FailingWriter::new(rt.alloc(), 3, 0, Fault::Error);
    assert_equal(&rt, print_rows("day", &[ROW], &mut out), Ok(()));
    assert_equal(&rt, out.taken(), text.as_slice());
    for fault in [Fault::Error, Fault::Zero] {
        for stop in 1..=text.len() {
            row_stops_at(&rt, fault, stop, &text[..stop - 1]);
        }
    }
}

#[test]
fn writes_lists(rt: HostRuntime) {
    let mut out = Vec::new(rt.alloc());
    let none: [u32; 0] = [];
    assert_equal(&rt, put_list(&mut out, &none), Ok(()));
    assert_equal(&rt, put_list(&mut out, &[7_u32]), Ok(()));
    assert_equal(&rt, put_list(&mut out, &[1_u32, 20, 4294967295]), Ok(()));
    assert_equal(&rt, out.as_slice(), b"-71,20,4294967295".as_slice());
}

#[test]
fn writes_sets(rt: HostRuntime) {
    let none = CaseSet::empty();
    let one = none.with(3);
    let some = one.with(16).with(1);
    let mut out = Vec::new(rt.alloc());
    let parts = [
        Part::Cases(none),
        Part::Text(b" "),
        Part::Cases(one),
        Part::Text(b" "),
        Part::Cases(some),
    ];
    assert_equal(&rt, put_parts(&mut out, &parts), Ok(()));
    assert_equal(&rt, out.as_slice(), b"- 3 1,3,16".as_slice());
}
