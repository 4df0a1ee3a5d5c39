// A writer that goes wrong at one of its writes.

ghost use Rattle.std.specs.Prelude.{◌≡◌, ◌≢◌, ◌+◌, ◌-◌, ◌^◌, [], IfOk, IsErr, IsOk, Ok, Some, length, min};
ghost use Rattle.std.specs.Io.{WritesAtMost};
ghost use Rattle.std.specs.Io.KnownBytes.{WriteAppends};

use std::alloc::Global;
use std::io;
use std::io::Write;

/// How a write goes wrong.
#[derive(Clone, Copy, Debug, PartialEq, Eq)]
pub enum Fault {
    /// It fails.
    Error,
    /// It takes nothing.
    Zero,
}

/// Takes at most `most` bytes at a write. The write numbered `stop`, from 1, goes wrong; later ones would go well.
#[derive(Drop)]
pub struct FailingWriter {
    taken: Vec<u8>,
    most: usize,
    stop: usize,
    fault: Fault,
    writes: usize,
}

impl FailingWriter {
    pub fn new(alloc: Global, most: usize, stop: usize, fault: Fault) -> FailingWriter
        ensures taken { result.taken.items ≡ [] }
        ensures most { result.most ≡ most }
        ensures stop { result.stop ≡ stop }
        ensures fault { result.fault ≡ fault }
        ensures none { result.writes ≡ 0 }
    {
        FailingWriter {
            taken: Vec::new(alloc),
            most,
            stop,
            fault,
            writes: 0,
        }
    }

    /// What it has taken.
    pub fn taken(&self) -> &[u8]
        ensures { result.now ≡ self.now.taken.items }
    {
        self.taken.as_slice()
    }

    /// How many writes there were.
    pub fn writes(&self) -> usize
        ensures { result ≡ self.now.writes }
    {
        self.writes
    }
}

impl Write for FailingWriter {
    ghost contents = { λ writer. Some writer.taken.items };

    fn write(&mut self, buf: &[u8]) -> io::Result<usize>
        ensures bound { WritesAtMost result buf.now }
        ensures bytes { WriteAppends (Some self.old.taken.items) (Some self.new.taken.items) result buf.now }
        ensures counted { self.new.writes ≡ min (self.old.writes + 1) (2 ^ 64 - 1) }
        ensures most { self.new.most ≡ self.old.most }
        ensures stop { self.new.stop ≡ self.old.stop }
        ensures fault { self.new.fault ≡ self.old.fault }
        ensures fails { self.new.writes ≡ self.old.stop → self.old.fault ≡ Fault.Error → IsErr result }
        ensures stands { self.new.writes ≡ self.old.stop → self.old.fault ≡ Fault.Zero → result ≡ Ok 0 }
        ensures takes { self.new.writes ≢ self.old.stop
            → IfOk result (λ count. count ≡ min (length buf.now) self.old.most) }
    {
        self.writes = self.writes.saturating_add(1);
        if self.writes == self.stop {
            return match self.fault {
                Fault::Error => Err(io::Error::from(io::ErrorKind::Interrupted)),
                Fault::Zero => Ok(0),
            };
        }
        let count = buf.len().min(self.most);
        self.taken.extend_from_slice(&buf[..count])?;
        Ok(count)
    }

    fn flush(&mut self) -> io::Result<()>
        ensures kept { self.new ≡ self.old }
        ensures good { IsOk result }
    {
        Ok(())
    }
}
