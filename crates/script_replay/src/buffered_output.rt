// Buffered output.

ghost use Rattle.std.specs.Prelude.{◌≡◌, ◌<◌, ◌≤◌, ◌+◌, ◌⊎◌, [], ◌++◌, drop, length, vec_len, Err, IfErr, IfOk};
ghost use Rattle.std.specs.Prelude.{IfSome, OnOk};
ghost use Rattle.std.specs.Io.KnownBytes.{Keeps};
ghost use Rattle.script_replay.specs.declared.buffered_output.TheConstants.{ROOM};

use crate::status::{RunStop, Status};
use std::alloc::{AllocError, Global};
use std::io;
use std::io::Write;

// How many bytes the buffer holds.
const ROOM: usize = 8192;

/// A writer with a buffer before it. It is flushed where it is full, and not when it is dropped. A failure
/// loses and doubles no byte: what was not written is still held.
#[derive(Drop)]
pub struct BufferedOutput<W: Write + Drop> {
    out: W,
    // It has all its bytes from the beginning, and the first `count` of them are held: so no write asks for memory,
    // or has to see whether it must.
    held: Vec<u8>,
    count: usize,
    ghost room: { vec_len held ≡ ROOM },
    ghost small: { count ≤ ROOM },
}

impl<W: Write + Drop> BufferedOutput<W> {
    ghost use Rattle.script_replay.specs.Buffering.{TakesFirst, buffered_contents, held_bytes};

    /// An empty buffer before the writer.
    pub fn new(alloc: Global, out: W) -> Result<BufferedOutput<W>, AllocError>
        ensures out { IfOk result (λ buffered. buffered.out ≡ out) }
        ensures empty { IfOk result (λ buffered. held_bytes buffered ≡ []) }
    {
        let held = vec![in alloc; 0; ROOM]?;
        Ok(BufferedOutput {
            out,
            held,
            count: 0,
        })
    }

    /// Flushes the buffer.
    pub fn finish(&mut self) -> Result<(), RunStop>
        ensures ok { OnOk result (held_bytes self.new ≡ []) }
        ensures stop { IfErr result (λ stop. stop ≡ RunStop.WriteFailed) }
        ensures kept { Keeps (buffered_contents W.contents self.old) (buffered_contents W.contents self.new) }
    {
        while self.count != 0 {
            self.flush_once()?;
        }
        Ok(())
    }

    /// Ends a run that writes here and ended so: flushes the buffer, unless it was a write that
    /// failed. The answer is how the run ended, or that its last bytes could not be written.
    pub fn end(&mut self, ended: Result<Status, RunStop>) -> Result<Status, RunStop>
        ensures stopped { IfErr ended (λ stop. result ≡ Err stop) }
        ensures ok { IfOk result (λ _. (result ≡ ended) × (held_bytes self.new ≡ [])) }
        ensures failed { IfErr result (λ stop. (result ≡ ended) ⊎ (stop ≡ RunStop.WriteFailed)) }
        ensures after_fault { ended ≡ Err RunStop.WriteFailed → self.new ≡ self.old }
        ensures kept { Keeps (buffered_contents W.contents self.old) (buffered_contents W.contents self.new) }
    {
        match ended {
            Ok(status) => {
                self.finish()?;
                Ok(status)
            }
            Err(RunStop::WriteFailed) => Err(RunStop::WriteFailed),
            Err(stop) => {
                let _ = self.finish();
                Err(stop)
            }
        }
    }

    // Holds some bytes more, where there is room for them.
    #[inline(always)]
    fn hold(&mut self, bytes: &[u8])
        requires { self.old.count + length bytes.now ≤ ROOM }
        ensures out { self.new.out ≡ self.old.out }
        ensures held { held_bytes self.new ≡ held_bytes self.old ++ bytes.now }
    {
        let end = self.count + bytes.len();
        self.held.as_mut_slice()[self.count..end].copy_from_slice(bytes);
        self.count = end;
    }

    // Takes what the buffer has room for, once it is flushed if it is full: how much, or `None` where that fails. It
    // answers no `io::Result`, since one has 96 bytes, which each caller would clear before the call.
    #[inline(never)]
    fn write_some(&mut self, bytes: &[u8]) -> Option<usize>
        ensures bound { IfSome result (λ count. count ≤ length bytes.now) }
        ensures bytes { TakesFirst (buffered_contents W.contents self.old) (buffered_contents W.contents self.new)
            result bytes.now }
    {
        if self.count >= ROOM {
            self.finish().ok()?;
        }
        let count = bytes.len().min(ROOM - self.count);
        self.hold(&bytes[..count]);
        Some(count)
    }

    // Flushes as much as one write takes.
    fn flush_once(&mut self) -> Result<(), RunStop>
        ensures ok { OnOk result (length (held_bytes self.new) < length (held_bytes self.old)) }
        ensures stop { IfErr result (λ stop. stop ≡ RunStop.WriteFailed) }
        ensures kept { Keeps (buffered_contents W.contents self.old) (buffered_contents W.contents self.new) }
    {
        match self.out.write(&self.held.as_slice()[..self.count]) {
            Ok(0) | Err(_) => Err(RunStop::WriteFailed),
            Ok(count) => {
                self.remove_front(count);
                Ok(())
            }
        }
    }

    // Holds no more what was written, and moves what is left to the front.
    fn remove_front(&mut self, count: usize)
        requires { count ≤ self.old.count }
        ensures out { self.new.out ≡ self.old.out }
        ensures rest { held_bytes self.new ≡ drop count (held_bytes self.old) }
    {
        self.held.copy_within(count..self.count, 0);
        self.count -= count;
    }
}

impl<W: Write + Drop> Write for BufferedOutput<W> {
    ghost use Rattle.script_replay.specs.Buffering.{buffered_contents};

    ghost contents = { buffered_contents W.contents };

    // Nearly each piece has room: it is one copy, which the compiler makes short where it knows the piece.
    #[inline(always)]
    fn write(&mut self, buf: &[u8]) -> io::Result<usize> {
        if buf.len() <= ROOM - self.count {
            self.hold(buf);
            return Ok(buf.len());
        }
        match self.write_some(buf) {
            Some(count) => Ok(count),
            None => Err(io::Error::from(io::ErrorKind::Other)),
        }
    }

    fn flush(&mut self) -> io::Result<()> {
        match self.finish() {
            Ok(()) => Ok(()),
            Err(_) => Err(io::Error::from(io::ErrorKind::Other)),
        }
    }
}
