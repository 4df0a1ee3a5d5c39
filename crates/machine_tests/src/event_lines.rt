// The lines of events.

use crate::assert_equal;
use action_tables::WriteFault;
use reset_machine::{Event, read_event, split_wave_event, split_word, write_event};
use std::alloc::Global;
use std::process::Abort;
use test_devices::{FailingWriter, Fault};

#[test]
fn reads_and_writes_each_line(rt: HostRuntime) {
    let lines = [
        (b"claim 4".as_slice(), Event::Claim { at: 4 }),
        (b"follow 5".as_slice(), Event::Follow { at: 5 }),
        (b"adopt 6 7".as_slice(), Event::Adopt { at: 6, from: 7 }),
        (b"request 1".as_slice(), Event::Request { at: 1 }),
        (b"relay 2 1".as_slice(), Event::Relay { at: 2, child: 1 }),
        (b"open 0".as_slice(), Event::Open { at: 0 }),
        (b"join 10".as_slice(), Event::Join { at: 10 }),
        (b"finish 65535".as_slice(), Event::Finish { at: 65535 }),
        (
            b"mend 4294967295".as_slice(),
            Event::Mend { at: 4_294_967_295 },
        ),
        (b"act 3 1 2".as_slice(), action(3, 1, Some(2))),
        (b"act 3 0".as_slice(), action(3, 0, None)),
        (b"act 0 255".as_slice(), action(0, 255, None)),
        (
            b"act 4294967295 255 4294967295".as_slice(),
            action(4_294_967_295, 255, Some(4_294_967_295)),
        ),
    ];
    for (line, event) in lines {
        is_read(&rt, line, event);
        is_written(&rt, rt.alloc(), event, line);
    }
}

fn is_read(rt: &impl Abort, line: &[u8], event: Event) {
    assert_equal(rt, read_event(line), Some(event));
}

fn is_written(rt: &impl Abort, alloc: Global, event: Event, line: &[u8]) {
    let mut out = Vec::new(alloc);
    assert_equal(rt, write_event(&event, &mut out), Ok(()));
    assert_equal(rt, out.as_slice(), line);
}

fn action(at: u32, case: u8, with: Option<u32>) -> Event {
    Event::Act { at, case, with }
}

fn cuts(rt: &impl Abort, text: &[u8], cut: Option<(&[u8], &[u8])>) {
    assert_equal(rt, split_word(text), cut);
}

#[test]
fn cuts_at_the_first_space(rt: HostRuntime) {
    cuts(&rt, b"show 3", Some((b"show", b"3")));
    cuts(&rt, b"  a ", Some((b"", b" a ")));
    cuts(&rt, b"show", None);
    cuts(&rt, b"", None);
}

fn splits(rt: &impl Abort, text: &[u8], split: Option<(Event, &[u8])>) {
    assert_equal(rt, split_wave_event(text), split);
}

#[test]
fn splits_off_the_command_of_a_wave(rt: HostRuntime) {
    let relay = Event::Relay { at: 2, child: 1 };
    splits(&rt, b"relay 2 1\nopen 3\n", Some((relay, b"open 3\n")));
    splits(&rt, b"relay 2 1", None);
    splits(&rt, b"relay 2\n1\n", None);
    splits(&rt, b"claim 2\n", None);
}

// The write after these bytes of the line fails, and it is the last.
fn stops_after(rt: &impl Abort, alloc: Global, event: Event, before: &[u8], fault: Fault) {
    let stop = before.len().saturating_add(1);
    let mut out = FailingWriter::new(alloc, 1, stop, fault);
    assert_equal(rt, write_event(&event, &mut out), Err(WriteFault));
    assert_equal(rt, out.taken(), before);
    assert_equal(rt, out.writes(), stop);
}

fn stops_anywhere(rt: &impl Abort, alloc: Global, line: &[u8], event: Event) {
    for fault in [Fault::Error, Fault::Zero] {
        for before in 0..line.len() {
            stops_after(rt, alloc, event, &line[..before], fault);
        }
    }
}

#[test]
fn stops_at_the_first_fault(rt: HostRuntime) {
    let relay = Event::Relay { at: 70, child: 6 };
    stops_anywhere(&rt, rt.alloc(), b"relay 70 6", relay);
    let act = action(70, 6, Some(31));
    stops_anywhere(&rt, rt.alloc(), b"act 70 6 31", act);
}
