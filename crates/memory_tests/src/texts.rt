// Replays, checks, verifications, runs of node threads, and the words of the command line.

use crate::assert_equal;
use crate::page::Page;
use reset_service::{
    Job, LineFault, RunStop, Status, check_text, read_words, replay, replay_joined, replay_text,
    threads_text, verify_text,
};
use std::alloc::Global;
use std::process::Abort;
use std::sync::Wait;
use std::thread::Threads;

const LINE: &[u8] = b"nodes = [1, 2, 3]\nlinks = [[1, 2], [2, 3]]\napp = \"token\"\n";

const SCRIPT: &[u8] =
    b"act 3 pass 2\nact 2 take 3\nrequest 3\nopen 3\nready\nenabled 2\ncheck\nnewest\n\
      fault local 1 hold/-/-\nfault down 1 3\nfault down 1 2\ndraw 7\nact 1 pass 2\n";

const ANSWERS: &[u8] =
    b"applied\napplied\napplied\napplied\nready 2 3\nenabled 2 tree - wave 1,4 act 1\nfaults 0\n\
      newest 1 unjoined\nnewest 2 unjoined\nnewest 3 hold/-/-\n\
      disturbed\nrefused NoSuchLink\ndisturbed\n";

const HISTORY: &[u8] = b"reset-history 1\nrequest 3\nopen 3\nfault local 1 hold/-/-\njoin 1\n";

// What one of the calls wrote, and how it ended.
type Answer = (Result<Status, RunStop>, Page);

// The calls on the texts above.
#[derive(Clone, Copy)]
enum Call {
    ReplayText,
    Replay,
    Check,
    Verify,
}

fn called(alloc: Global, call: Call) -> Answer {
    let mut out = Page::new();
    let (mut script, mut history) = (SCRIPT, HISTORY);
    let result = match call {
        Call::ReplayText => replay_text(alloc, LINE, SCRIPT, &mut out),
        Call::Replay => replay(alloc, LINE, &mut script, &mut out),
        Call::Check => check_text(alloc, LINE, &mut script, &mut out),
        Call::Verify => verify_text(alloc, LINE, &mut history, &mut out),
    };
    (result, out)
}

// Calls it until memory isn't refused: what was written before is the beginning of what is written then.
fn answered(rt: &impl Abort, alloc: Global, call: Call) -> Answer {
    let (result, begun) = called(alloc, call);
    if result != Err(RunStop::NoMemory) {
        return (result, begun);
    }
    let (result, out) = called(alloc, call);
    assert!(rt; out.text().starts_with(begun.text()));
    (result, out)
}

#[test]
fn replays_are_answered(rt: HostRuntime) {
    for call in [Call::ReplayText, Call::Replay] {
        let (result, out) = answered(&rt, rt.alloc(), call);
        assert_equal(&rt, result, Ok(Status::Good));
        assert!(rt; out.text().starts_with(ANSWERS));
    }
    let (result, out) = answered(&rt, rt.alloc(), Call::Check);
    assert_equal(&rt, result, Ok(Status::FaultsFound));
    assert!(rt; out.text().starts_with(ANSWERS));
}

#[test]
fn verifications_are_answered(rt: HostRuntime) {
    let (result, out) = answered(&rt, rt.alloc(), Call::Verify);
    assert_equal(&rt, result, Ok(Status::NotEnabled));
    assert_equal(&rt, out.text(), b"not enabled at 4\n".as_slice());
}

#[test]
fn a_joined_text_is_answered(rt: HostRuntime) {
    let text =
        b"nodes = [7]\nlinks = []\napp = \"idle\"\n---\nrequest 7\nopen 7\nfinish 7\n".as_slice();
    let (mut first, mut second) = (text, text);
    let (mut begun, mut out) = (Page::new(), Page::new());
    let result = replay_joined(rt.alloc(), &mut first, &mut begun);
    let (result, out) = if result == Err(RunStop::NoMemory) {
        (replay_joined(rt.alloc(), &mut second, &mut out), out)
    } else {
        (result, begun)
    };
    assert!(rt; out.text().starts_with(begun.text()));
    assert_equal(&rt, result, Ok(Status::Good));
    assert_equal(
        &rt,
        out.text(),
        b"applied\napplied\ncomplete 1\n".as_slice(),
    );
}

// What node 7 alone keeps and tells.
fn alone<R: Threads + Wait + Sync>(rt: &R, alloc: Global) -> (Result<Status, RunStop>, Page, Page) {
    let topology = b"nodes = [7]\nlinks = []\napp = \"idle\"\n";
    let (mut history, mut out) = (Page::new(), Page::new());
    let result = threads_text(rt, alloc, topology, 10, &mut history, &mut out);
    (result, history, out)
}

#[test]
fn a_thread_of_a_node_alone_is_told(rt: HostRuntime) {
    let (mut result, mut history, mut out) = alone(&rt, rt.alloc());
    if result == Err(RunStop::NoMemory) || result == Err(RunStop::ThreadFailed) {
        assert!(rt; history.text().is_empty() && out.text().is_empty());
        (result, history, out) = alone(&rt, rt.alloc());
    }
    assert_equal(&rt, result, Ok(Status::Good));
    assert_equal(
        &rt,
        history.text(),
        b"reset-history 3 4294967296\nrequest 7\nopen 7\nfinish 7\n".as_slice(),
    );
    assert_equal(
        &rt,
        out.text(),
        b"threads 1 nodes 3 entries 1 reports\n".as_slice(),
    );
}

#[test]
fn words_are_read(rt: HostRuntime) {
    let words = ["reset-service", "replay", "a", "b"];
    let job = again!(&rt; read_words(rt.alloc(), &words), LineFault::NoMemory, true);
    match job {
        Ok(Job::Replay(words)) => assert!(rt; words.topology == "a" && words.script == "b"),
        _ => panic!(rt; "a replay"),
    }
}
