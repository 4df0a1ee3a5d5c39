// A reader that fails at one of its reads, and one that has no end.

ghost use Rattle.std.specs.Prelude.{◌≡◌, ◌≢◌, ◌+◌, ◌-◌, ◌^◌, IsErr, None, Ok, Some, length, min, replicate};
ghost use Rattle.std.specs.Io.{ReadsAtMost};
ghost use Rattle.std.specs.Io.KnownBytes.{ReadConsumes};

use std::io;
use std::io::Read;

// How many bytes a read gives at most.
const MOST: usize = 7;

/// Gives its bytes, at most seven at a read. The read numbered `stop`, from 1, fails; later ones would go well.
#[derive(Drop)]
pub struct FailingReader<'t> {
    rest: &'t [u8],
    stop: usize,
    reads: usize,
}

impl<'t> FailingReader<'t> {
    pub fn new(text: &'t [u8], stop: usize) -> FailingReader<'t>
        ensures rest { result.rest.now ≡ text.now }
        ensures stop { result.stop ≡ stop }
        ensures none { result.reads ≡ 0 }
    {
        FailingReader {
            rest: text,
            stop,
            reads: 0,
        }
    }

    /// How many reads there were.
    pub fn reads(&self) -> usize
        ensures { result ≡ self.now.reads }
    {
        self.reads
    }
}

impl Read for FailingReader<'_> {
    ghost remaining = { λ reader. Some reader.rest.now };

    fn read(&mut self, buf: &mut [u8]) -> io::Result<usize>
        ensures bound { ReadsAtMost result buf.new }
        ensures bytes { ReadConsumes (Some self.old.rest.now) (Some self.new.rest.now) result buf.new }
        ensures counted { self.new.reads ≡ min (self.old.reads + 1) (2 ^ 64 - 1) }
        ensures stop { self.new.stop ≡ self.old.stop }
        ensures fails { self.new.reads ≡ self.old.stop → IsErr result }
        ensures gives { self.new.reads ≢ self.old.stop
            → result ≡ Ok (min (length buf.old) (min (length self.old.rest.now) 7)) }
    {
        self.reads = self.reads.saturating_add(1);
        if self.reads == self.stop {
            return Err(io::Error::from(io::ErrorKind::Interrupted));
        }
        let count = buf.len().min(self.rest.len()).min(MOST);
        buf[..count].copy_from_slice(&self.rest[..count]);
        self.rest = &self.rest[count..];
        Ok(count)
    }
}

/// Gives the byte `1` for ever.
#[derive(Drop)]
pub struct Endless;

impl Read for Endless {
    fn read(&mut self, buf: &mut [u8]) -> io::Result<usize>
        ensures bound { ReadsAtMost result buf.new }
        ensures bytes { ReadConsumes None None result buf.new }
        ensures whole { result ≡ Ok (length buf.old) }
        ensures ones { buf.new ≡ replicate (length buf.old) 49 }
    {
        buf.fill(b'1');
        Ok(buf.len())
    }
}
