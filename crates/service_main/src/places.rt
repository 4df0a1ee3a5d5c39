// Where a history is written: what its path leads to, what it must not be, and the folder that has it.

use reset_service::Status;
use std::fs::{Metadata, OpenFile};
use std::os::unix::fs::MetadataExt;
use std::path::PathBuf;
use std::rt::Files;
use std::{fs, io};

// So many links the system follows too.
const MOST_LINKS: u32 = 40;

/// What the file of a history must not be.
#[derive(Clone, Copy, Debug, PartialEq, Eq)]
pub enum HistoryFault {
    /// A file that the run reads.
    IsInput,
    /// The file that the standard output goes to.
    IsOutput,
}

/// Why no history may be written to a path, if so: it names a regular file that is one of the inputs too, or that the
/// answers go to.
pub fn history_fault<R: Files>(
    rt: &R,
    path: &str,
    inputs: &[Option<&str>],
) -> Option<HistoryFault> {
    match fs::metadata(rt, path) {
        Ok(file) if file.is_file() => fault_of(rt, &file, inputs),
        _ => None,
    }
}

fn fault_of<R: Files>(rt: &R, file: &Metadata, inputs: &[Option<&str>]) -> Option<HistoryFault> {
    if names_one(rt, file, inputs) {
        return Some(HistoryFault::IsInput);
    }
    if names(rt, "/dev/stdout", file) {
        return Some(HistoryFault::IsOutput);
    }
    None
}

/// Says why no history may be written to its path, before it is opened.
pub fn refuse_history<R: Eprint>(rt: &R, fault: HistoryFault) -> Status {
    let _ = match fault {
        HistoryFault::IsInput => eprintln!(rt; "history is an input"),
        HistoryFault::IsOutput => eprintln!(rt; "history is the output"),
    };
    Status::BadInput
}

// Whether one of the paths names this file.
fn names_one<R: Files>(rt: &R, file: &Metadata, paths: &[Option<&str>]) -> bool {
    for path in paths {
        if let Some(path) = path {
            if names(rt, path, file) {
                return true;
            }
        }
    }
    false
}

/// Whether the path names this file.
pub fn names<R: Files>(rt: &R, path: &str, file: &Metadata) -> bool {
    match fs::metadata(rt, path) {
        Ok(other) => other.dev() == file.dev() && other.ino() == file.ino(),
        Err(_) => false,
    }
}

/// The path at which the links end that begin at this one: itself where it is none. Nothing may be there yet.
pub fn end_of_links<R: Files + AllocGlobal>(rt: &R, path: &str) -> io::Result<PathBuf> {
    let mut place = PathBuf::from_str(rt.alloc(), path)?;
    for _ in 0..MOST_LINKS {
        if !is_link(rt, place.as_str()) {
            return Ok(place);
        }
        let target = rt.read_link(rt.alloc(), place.as_str())?;
        place.pop();
        place.push(target.as_str())?;
    }
    // the system says it in its own words
    fs::metadata(rt, path)?;
    Err(io::Error::from(io::ErrorKind::InvalidInput))
}

fn is_link<R: Files>(rt: &R, path: &str) -> bool {
    match fs::symlink_metadata(rt, path) {
        Ok(found) => found.is_symlink(),
        Err(_) => false,
    }
}

/// The path of the folder of a file.
pub fn folder_of<R: AllocGlobal>(rt: &R, path: &str) -> io::Result<PathBuf> {
    let mut folder = PathBuf::from_str(rt.alloc(), path)?;
    folder.pop();
    if folder.as_str().is_empty() {
        folder.push(".")?;
    }
    Ok(folder)
}

/// Opens the folder of a file, to be synced when the file is in it. There is none where it can't be opened.
pub fn open_folder<R: Files + AllocGlobal>(rt: &R, path: &str) -> io::Result<Option<R::File>> {
    let folder = folder_of(rt, path)?;
    match fs::open(rt, folder.as_str()) {
        Ok(folder) => Ok(Some(folder)),
        Err(_) => Ok(None),
    }
}

/// Makes safe on the disk which files are in a folder, if it can be synced at all.
pub fn sync_folder<F: OpenFile>(folder: &Option<F>) -> io::Result<()> {
    let Some(folder) = folder else {
        return Ok(());
    };
    match folder.sync_all() {
        Err(error) if error.kind() == io::ErrorKind::InvalidInput => Ok(()),
        done => done,
    }
}
