// The buffer between a run and its output: what it has flushed, and how it ends.

use crate::assert_equal;
use action_tables::put_bytes;
use reset_service::{BufferedOutput, RunStop, Status};
use std::alloc::Global;
use std::test::Fail;
use test_devices::{FailingWriter, Fault};

const PIECE: &[u8] = b"0123456789";

// A run of a thousand pieces that ended so, over a writer that takes 3,000 bytes at a write and fails
// at the write numbered `stop`: how it ends.
fn ended(
    alloc: Global,
    stop: usize,
    fault: Fault,
    run: Result<Status, RunStop>,
) -> Result<Result<Status, RunStop>, Fail> {
    let mut out = BufferedOutput::new(alloc, FailingWriter::new(alloc, 3000, stop, fault))?;
    for _ in 0..1000 {
        if put_bytes(&mut out, PIECE).is_err() {
            return Ok(out.end(Err(RunStop::WriteFailed)));
        }
    }
    Ok(out.end(run))
}

#[test]
fn ends_as_the_run_did(rt: HostRuntime) -> Result<(), Fail> {
    for run in [
        Ok(Status::Good),
        Ok(Status::FaultsFound),
        Ok(Status::NotEnabled),
        Ok(Status::BadInput),
        Err(RunStop::ReadFailed),
        Err(RunStop::NoMemory),
        Err(RunStop::WriteFailed),
    ] {
        assert_equal(&rt, ended(rt.alloc(), 0, Fault::Error, run)?, run);
    }
    Ok(())
}

#[test]
fn a_failed_write_is_told(rt: HostRuntime) -> Result<(), Fail> {
    for fault in [Fault::Error, Fault::Zero] {
        for stop in 1..=4 {
            let result = ended(rt.alloc(), stop, fault, Ok(Status::Good))?;
            assert_eq!(rt; result, Err(RunStop::WriteFailed), "at write {stop}");
        }
        let result = ended(rt.alloc(), 4, fault, Err(RunStop::NoMemory))?;
        assert_equal(&rt, result, Err(RunStop::NoMemory));
    }
    Ok(())
}
