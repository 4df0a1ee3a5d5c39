// The file in which a session keeps its history.

ghost use Rattle.std.specs.Io.{WritesAtMost};
ghost use Rattle.std.specs.Prelude.{◌<◌, ◌≤◌, IfOk, IfSome, length};

use crate::places::{end_of_links, open_folder, sync_folder};
use crate::write_errors::{Target, WriteErrors};
use action_tables::put_bytes;
use reset_service::RunStop;
use std::fs::{OpenFile, OpenOptions};
use std::io::{ErrorKind, Read, Seek, SeekFrom, Stderr, Write};
use std::os::unix::fs::MetadataExt;
use std::rt::Files;
use std::{fs, io};

// The most bytes at the end of a file that are searched for the end of its last whole line: a line has fewer.
const TAIL: usize = 4096;

const CUT_OFF: &[u8] = b"history: the last line had no end and was cut off\n";

const CHANGED: &[u8] = b"history: another program has written to it, moved it or removed it\n";

/// A file that a history is appended to. It is created by the first write or flush, and one that is there goes on after
/// its last whole line: what stands after that, which only a crash leaves, is cut off by the first write or flush. Where
/// another program has written to it, moved it or removed it meanwhile, a write fails: nothing is written over, or kept where
/// nobody finds it.
#[derive(Drop)]
pub struct KeptFile<'a, R: Files + AllocGlobal> {
    rt: &'a R,
    path: &'a str,
    // None until it is created.
    file: Option<R::File>,
    ends: Ends,
    // How long it is after what was written so far, or None where it is no regular file.
    length: Option<u64>,
    // Whether the next write goes after the whole lines.
    is_placed: bool,
    // Whether a flush makes safe on the disk what was written.
    syncs: bool,
    // Where it is said that something was cut off.
    errors: Stderr,
    // Where it is kept why a write failed.
    failed: &'a WriteErrors,
}

// How many bytes the whole lines of a file have, and how many stand after them.
#[derive(Clone, Copy)]
struct Ends {
    whole: u64,
    torn: u64,
}

impl<'a, R: Files + AllocGlobal> KeptFile<'a, R> {
    /// How many of its bytes have to be a history: those of its whole lines or, where it has none, all.
    pub fn judged(&self) -> u64 {
        if self.ends.whole > 0 {
            self.ends.whole
        } else {
            self.ends.torn
        }
    }

    // Creates the file, or cuts off what stands after its whole lines, and goes there.
    fn place(&mut self) -> io::Result<()> {
        match &mut self.file {
            Some(file) => {
                see_that_it_is_as_left(self.rt, self.path, file, self.length, &mut self.errors)?;
                cut_off(file, self.ends, &mut self.errors)?;
            }
            None => self.file = Some(create_kept(self.rt, self.path, self.syncs)?),
        }
        self.length = Some(self.ends.whole);
        self.is_placed = true;
        Ok(())
    }

    // Writes after what was written so far.
    fn append(&mut self, buf: &[u8]) -> io::Result<usize>
        ensures { WritesAtMost result buf.now }
    {
        if !self.is_placed {
            self.place()?;
        }
        let Some(file) = &mut self.file else {
            return Err(io::Error::from(ErrorKind::NotFound));
        };
        see_that_it_is_as_left(self.rt, self.path, file, self.length, &mut self.errors)?;
        let count = file.write(buf)?;
        self.length = self
            .length
            .map(|length| length.saturating_add(count as u64));
        Ok(count)
    }

    // Makes safe on the disk what was written so far, where that is wanted.
    fn sync(&mut self) -> io::Result<()> {
        if !self.is_placed {
            self.place()?;
        }
        match &self.file {
            Some(file) if self.syncs => file.sync_data(),
            _ => Ok(()),
        }
    }
}

impl<R: Files + AllocGlobal> Write for KeptFile<'_, R> {
    fn write(&mut self, buf: &[u8]) -> io::Result<usize> {
        match self.append(buf) {
            Ok(count) => Ok(count),
            Err(error) => {
                self.failed.keep(Target::History, error);
                Err(error)
            }
        }
    }

    fn flush(&mut self) -> io::Result<()> {
        match self.sync() {
            Ok(()) => Ok(()),
            Err(error) => {
                self.failed.keep(Target::History, error);
                Err(error)
            }
        }
    }
}

// Cuts off what stands after the whole lines of a file, says so, and goes there.
fn cut_off<F: Seek + OpenFile>(file: &mut F, ends: Ends, errors: &mut Stderr) -> io::Result<()> {
    if ends.torn > 0 {
        file.set_len(ends.whole)?;
        let _ = put_bytes(errors, CUT_OFF);
    }
    file.seek(SeekFrom::Start(ends.whole))?;
    Ok(())
}

// Sees that a regular file is as long as it was left, and still at its path. If not, that is said, and an error.
fn see_that_it_is_as_left<R: Files>(
    rt: &R,
    path: &str,
    file: &R::File,
    length: Option<u64>,
    errors: &mut Stderr,
) -> io::Result<()> {
    let Some(length) = length else {
        return Ok(());
    };
    let found = file.metadata()?;
    match fs::metadata(rt, path) {
        Ok(there) if there.ino() == found.ino() && there.dev() == found.dev() => {
            if found.len() == length {
                return Ok(());
            }
        }
        Err(error) if error.kind() == ErrorKind::OutOfMemory => return Err(error),
        _ => {}
    }
    let _ = put_bytes(errors, CHANGED);
    Err(io::Error::from(ErrorKind::AlreadyExists))
}

// Creates the file to which a path leads. One that has come there meanwhile is left as it is.
fn create_kept<R: Files + AllocGlobal>(rt: &R, path: &str, syncs: bool) -> io::Result<R::File> {
    let place = end_of_links(rt, path)?;
    let mut options = OpenOptions::new();
    options.write(true).create_new(true);
    let file = options.open(rt, place.as_str())?;
    if syncs {
        sync_folder(&open_folder(rt, place.as_str())?)?;
    }
    Ok(file)
}

/// Looks for the file of a history. With `syncs` a flush makes safe on the disk what was written. What is no regular
/// file, as a terminal or a pipe, is written as it is.
pub fn open_kept<'a, R: Files + AllocGlobal>(
    rt: &'a R,
    path: &'a str,
    syncs: bool,
    errors: Stderr,
    failed: &'a WriteErrors,
) -> Result<KeptFile<'a, R>, RunStop> {
    // A pipe that is opened for reading too would be its own reader, and what nobody reads would be taken for kept.
    let is_read = match fs::metadata(rt, path) {
        Ok(there) => there.is_file(),
        Err(_) => true,
    };
    let mut options = OpenOptions::new();
    options.read(is_read).write(true);
    let found = match options.open(rt, path) {
        Ok(file) => found_file(file)?,
        Err(error) if error.kind() == ErrorKind::NotFound => Found {
            file: None,
            ends: Ends { whole: 0, torn: 0 },
            is_regular: true,
        },
        Err(error) => return Err(failed.stop_of(error)),
    };
    let length = found.length();
    Ok(KeptFile {
        rt,
        path,
        file: found.file,
        ends: found.ends,
        length,
        is_placed: !found.is_regular,
        syncs: syncs && found.is_regular,
        errors,
        failed,
    })
}

// What is at the path of a history.
#[derive(Drop)]
struct Found<F: Drop> {
    file: Option<F>,
    ends: Ends,
    is_regular: bool,
}

impl<F: Drop> Found<F> {
    // How long it is, if it is a regular file.
    fn length(&self) -> Option<u64> {
        if self.is_regular {
            Some(self.ends.whole.saturating_add(self.ends.torn))
        } else {
            None
        }
    }
}

fn found_file<F: Read + Seek + OpenFile + Drop>(mut file: F) -> Result<Found<F>, RunStop> {
    let is_regular = match file.metadata() {
        Ok(found) => found.is_file(),
        Err(_) => return Err(RunStop::ReadFailed),
    };
    let ends = if is_regular {
        match ends_of(&mut file) {
            Ok(ends) => ends,
            Err(_) => return Err(RunStop::ReadFailed),
        }
    } else {
        Ends { whole: 0, torn: 0 }
    };
    Ok(Found {
        file: Some(file),
        ends,
        is_regular,
    })
}

// Where the lines of a file end. A long file without a line feed in its last bytes is whole: it is no history.
fn ends_of<F: Read + Seek>(file: &mut F) -> io::Result<Ends> {
    let length = file.seek(SeekFrom::End(0))?;
    let start = length.saturating_sub(TAIL as u64);
    file.seek(SeekFrom::Start(start))?;
    let mut tail = [0; TAIL];
    let count = read_tail(file, length, &mut tail)?;
    match last_line_feed(&tail[..count]) {
        Some(at) => {
            let torn = (count - at - 1) as u64;
            Ok(Ends {
                whole: length.saturating_sub(torn),
                torn,
            })
        }
        None if start == 0 => Ok(Ends {
            whole: 0,
            torn: length,
        }),
        None => Ok(Ends {
            whole: length,
            torn: 0,
        }),
    }
}

// Reads the last bytes of a file of this length, and returns how many they are.
fn read_tail<F: Read>(file: &mut F, length: u64, tail: &mut [u8; TAIL]) -> io::Result<usize>
    ensures { IfOk result (λ count. count ≤ 4096) }
{
    let count = match usize::try_from(length) {
        Ok(length) if length < TAIL => length,
        _ => TAIL,
    };
    file.read_exact(&mut tail[..count])?;
    Ok(count)
}

// The place of the last line feed.
fn last_line_feed(bytes: &[u8]) -> Option<usize>
    ensures { IfSome result (λ at. at < length bytes.now) }
{
    bytes.iter().rposition(|byte| *byte == b'\n')
}
