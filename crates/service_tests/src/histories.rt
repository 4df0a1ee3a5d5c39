// The verification of a history: what it writes, and what it does where a reader or a writer fails. What it
// answers to other histories is shown on the program itself.

use crate::assert_equal;
use crate::calls::LINE;
use reset_service::{RunStop, Status, verify_text};
use std::alloc::Global;
use test_devices::{FailingReader, FailingWriter, Fault};

const WAVE: &[u8] =
    b"reset-history 1\nrequest 1\nrelay 2 1\nrelay 3 2\nopen 3\njoin 2\njoin 1\nfinish 1\nfinish 2\nfinish 3\n";

const VERIFIED: &[u8] = b"report 1 opened 4 finished 9\nverified 9 entries 1 reports\n";

// A reader of the history that fails at the read numbered `stop`, from 1.
fn failing(stop: usize) -> FailingReader<'static> {
    FailingReader::new(WAVE, stop)
}

// How the history is answered into the writer.
fn written(alloc: Global, out: &mut FailingWriter) -> Result<Status, RunStop> {
    let mut history = WAVE;
    verify_text(alloc, LINE, &mut history, out)
}

#[test]
fn a_failed_read_writes_nothing(rt: HostRuntime) {
    for stop in 1..=WAVE.len() / 7 + 2 {
        let mut out = Vec::new(rt.alloc());
        let mut history = failing(stop);
        let result = verify_text(rt.alloc(), LINE, &mut history, &mut out);
        assert_eq!(rt; result, Err(RunStop::ReadFailed), "at read {stop}");
        assert_equal(&rt, history.reads(), stop);
        assert_equal(&rt, out.len(), 0);
    }
}

#[test]
fn a_bad_topology_reads_no_history(rt: HostRuntime) {
    let mut out = Vec::new(rt.alloc());
    let mut history = failing(1);
    let result = verify_text(rt.alloc(), b"nodes = [1", &mut history, &mut out);
    assert_equal(&rt, result, Ok(Status::BadInput));
    assert_equal(&rt, out.as_slice(), b"bad topology NotToml\n".as_slice());
    assert_equal(&rt, history.reads(), 0);
}

#[test]
fn a_failed_write_is_the_last(rt: HostRuntime) {
    for fault in [Fault::Error, Fault::Zero] {
        let mut reached = 0;
        for stop in 1..100 {
            let mut out = FailingWriter::new(rt.alloc(), 5, stop, fault);
            let result = written(rt.alloc(), &mut out);
            assert!(rt; VERIFIED.starts_with(out.taken()));
            if result == Ok(Status::Good) {
                break;
            }
            assert_eq!(rt; result, Err(RunStop::WriteFailed), "at write {stop}");
            assert_equal(&rt, out.writes(), stop);
            reached = stop;
        }
        assert!(rt; reached > 10);
    }
}
