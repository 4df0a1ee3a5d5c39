// Runs of node threads: what a run does where one of its two writers fails. What threads keep is shown on the program
// itself.

use crate::assert_equal;
use reset_service::{RunStop, Status, threads_text};
use std::alloc::Global;
use std::sync::Wait;
use std::thread::Threads;
use test_devices::{FailingWriter, Fault};

// A node without neighbours does what it does in one order.
const ALONE: &[u8] = b"nodes = [7]\nlinks = []\napp = \"idle\"\n";

const HISTORY: &[u8] = b"reset-history 3 4294967296\nrequest 7\nopen 7\nfinish 7\n";

const LINE: &[u8] = b"threads 1 nodes 3 entries 1 reports\n";

// How the node alone is answered, where each write takes at most five bytes.
fn stopped<R: Threads + Wait + Sync>(
    rt: &R,
    alloc: Global,
    history: &mut FailingWriter,
    out: &mut FailingWriter,
) -> Result<Status, RunStop> {
    threads_text(rt, alloc, ALONE, 10, history, out)
}

#[test]
fn no_line_follows_a_history_that_is_not_whole(rt: HostRuntime) {
    for fault in [Fault::Error, Fault::Zero] {
        for stop in 1..=HISTORY.len().div_ceil(5) {
            let mut history = FailingWriter::new(rt.alloc(), 5, stop, fault);
            let mut out = FailingWriter::new(rt.alloc(), 5, 0, fault);
            let result = stopped(&rt, rt.alloc(), &mut history, &mut out);
            assert_eq!(rt; result, Err(RunStop::WriteFailed), "at write {stop}");
            assert_equal(&rt, history.writes(), stop);
            assert!(rt; HISTORY.starts_with(history.taken()));
            assert_equal(&rt, out.writes(), 0);
        }
    }
}

#[test]
fn a_failed_write_of_the_line_is_the_last(rt: HostRuntime) {
    for fault in [Fault::Error, Fault::Zero] {
        for stop in 1..=7 {
            let mut history = FailingWriter::new(rt.alloc(), 5, 0, fault);
            let mut out = FailingWriter::new(rt.alloc(), 5, stop, fault);
            let result = stopped(&rt, rt.alloc(), &mut history, &mut out);
            assert_eq!(rt; result, Err(RunStop::WriteFailed), "at write {stop}");
            assert_equal(&rt, history.taken(), HISTORY);
            assert_equal(&rt, out.writes(), stop);
            assert!(rt; LINE.starts_with(out.taken()));
        }
    }
}
