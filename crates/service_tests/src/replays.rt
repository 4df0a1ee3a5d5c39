// Whole runs of each call: what they write, and what they do where a reader or a writer fails. What other scripts are
// answered with, and where a joined text is cut, is shown on the program itself.

use crate::assert_equal;
use crate::calls::{ALL, LINE, ONE_WAVE, READING};
use reset_service::{RunStop, Status, print_tables, read_text};
use std::test::Fail;
use test_devices::{Endless, FailingReader, FailingWriter, Fault};

#[test]
fn one_wave(rt: HostRuntime) {
    for call in ALL {
        let mut out = Vec::new(rt.alloc());
        let mut script = ONE_WAVE;
        let result = call.run(rt.alloc(), LINE, &mut script, &mut out);
        assert_equal(&rt, result, Ok(Status::Good));
        assert_equal(&rt, out.as_slice(), call.answers());
    }
}

#[test]
fn a_failing_reader_writes_nothing(rt: HostRuntime) {
    for call in ALL {
        for stop in 1..=ONE_WAVE.len() / 7 + 2 {
            let mut out = Vec::new(rt.alloc());
            let mut script = FailingReader::new(ONE_WAVE, stop);
            let result = call.run(rt.alloc(), LINE, &mut script, &mut out);
            assert_eq!(rt; result, Err(RunStop::ReadFailed), "at read {stop}");
            assert_equal(&rt, script.reads(), stop);
            assert_equal(&rt, out.len(), 0);
        }
    }
}

#[test]
fn a_bad_topology_reads_nothing(rt: HostRuntime) {
    for call in READING {
        let mut out = Vec::new(rt.alloc());
        let mut script = FailingReader::new(ONE_WAVE, 1);
        let result = call.run(rt.alloc(), b"nodes = [1", &mut script, &mut out);
        assert_equal(&rt, result, Ok(Status::BadInput));
        assert_equal(&rt, out.as_slice(), b"bad topology NotToml\n".as_slice());
        assert_equal(&rt, script.reads(), 0);
    }
}

#[test]
fn a_failing_writer_is_left_alone(rt: HostRuntime) {
    for call in ALL {
        for fault in [Fault::Error, Fault::Zero] {
            let mut reached = 0;
            for stop in 1..1000 {
                let mut out = FailingWriter::new(rt.alloc(), 5, stop, fault);
                let mut script = ONE_WAVE;
                let result = call.run(rt.alloc(), LINE, &mut script, &mut out);
                assert!(rt; call.answers().starts_with(out.taken()));
                if result == Ok(Status::Good) {
                    break;
                }
                assert_eq!(rt; result, Err(RunStop::WriteFailed), "at write {stop}");
                assert_equal(&rt, out.writes(), stop);
                reached = stop;
            }
            assert!(rt; reached > 20);
        }
    }
}

#[test]
fn a_writer_of_single_bytes_gets_the_whole_text(rt: HostRuntime) {
    for call in ALL {
        let mut out = FailingWriter::new(rt.alloc(), 1, 0, Fault::Error);
        let mut script = ONE_WAVE;
        let result = call.run(rt.alloc(), LINE, &mut script, &mut out);
        assert_equal(&rt, result, Ok(Status::Good));
        assert_equal(&rt, out.taken(), call.answers());
    }
}

#[test]
fn the_tables_stop_at_a_failed_write(rt: HostRuntime) {
    for fault in [Fault::Error, Fault::Zero] {
        let mut out = FailingWriter::new(rt.alloc(), 64, 3, fault);
        assert_equal(&rt, print_tables(&mut out), Err(RunStop::WriteFailed));
        assert_equal(&rt, out.writes(), 3);
        assert!(rt; b"table tree\n".as_slice().starts_with(out.taken()));
    }
}

#[test]
fn a_text_is_read_to_its_limit(rt: HostRuntime) -> Result<(), Fail> {
    let mut text = ONE_WAVE;
    assert_equal(&rt, read_text(rt.alloc(), &mut text)?.as_slice(), ONE_WAVE);
    assert_equal(&rt, read_text(rt.alloc(), &mut Endless)?.len(), 1_048_577);
    Ok(())
}
