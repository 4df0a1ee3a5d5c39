// The file that a run writes its history to, which takes the place of another at the end and not before.

ghost use Rattle.std.specs.Prelude.{◌≡◌, Err, IfErr, IfOk};
ghost use Rattle.script_replay.specs.Stops.{IsOutputStop};

use crate::places::{end_of_links, names, open_folder, sync_folder};
use crate::streams::{HeldDescriptors, hold_descriptors};
use crate::write_errors::{Target, WatchedWriter, WriteErrors};
use reset_service::{RunStop, Status};
use std::fs::{File, Metadata, OpenFile, OpenOptions, Permissions};
use std::io::Write;
use std::path::PathBuf;
use std::rt::Files;
use std::{fs, io};

/// The file of a history.
#[derive(Drop)]
pub struct HistoryFile<'a, R: Files> {
    place: PathBuf,
    // The path of the file beside it, or None where the history is written to what is at the place.
    part: Option<String>,
    // The folder of both, if it can be opened. At the end no memory may be wanted for it, as the answers are whole then.
    folder: Option<R::File>,
    /// What the history is written to.
    pub file: WatchedWriter<'a, R::File>,
    // So the file has no descriptor of a standard stream.
    held: HeldDescriptors<R::File>,
}

/// Opens a file for a history. Where a regular file or nothing is where the path leads, over any links, that is a
/// file `PLACE.part` beside it, which must not be there yet, so that no file is written over. A device or a pipe is written to
/// itself, and so is a file that has no path.
pub fn create_history<'a, R: Files + Eprint + AllocGlobal>(
    rt: &R,
    path: &str,
    errors: &'a WriteErrors,
) -> Result<HistoryFile<'a, R>, RunStop>
    ensures { IfErr result IsOutputStop }
{
    let held = hold_descriptors(rt, errors)?;
    let place = match end_of_links(rt, path) {
        Ok(place) => place,
        Err(error) => return Err(errors.stop_of(error)),
    };
    match fs::metadata(rt, path) {
        Ok(there) if there.is_file() && names(rt, place.as_str(), &there) => {
            create_beside(rt, held, place, Some(there), errors)
        }
        Err(error) if error.kind() == io::ErrorKind::NotFound && !path.is_empty() => {
            create_beside(rt, held, place, None, errors)
        }
        _ => create_directly(rt, held, path, errors),
    }
}

// Opens what is at the path itself.
fn create_directly<'a, R: Files + AllocGlobal>(
    rt: &R,
    held: HeldDescriptors<R::File>,
    path: &str,
    errors: &'a WriteErrors,
) -> Result<HistoryFile<'a, R>, RunStop>
    ensures { IfErr result IsOutputStop }
{
    let place = PathBuf::from_str(rt.alloc(), path)?;
    match fs::create(rt, path) {
        Ok(file) => Ok(HistoryFile {
            place,
            part: None,
            folder: None,
            file: WatchedWriter::new(Target::History, errors, file),
            held,
        }),
        Err(error) => Err(errors.stop_of(error)),
    }
}

// Opens the file beside a place at which this file is, if one is. The new one gets its permissions.
fn create_beside<'a, R: Files + Eprint + AllocGlobal>(
    rt: &R,
    held: HeldDescriptors<R::File>,
    place: PathBuf,
    there: Option<Metadata>,
    errors: &'a WriteErrors,
) -> Result<HistoryFile<'a, R>, RunStop>
    ensures { IfErr result IsOutputStop }
{
    if there.is_some() {
        see_that_it_opens(rt, place.as_str(), errors)?;
    }
    let part = format!(in rt.alloc(); "{}.part", place.as_str())?;
    let folder = match open_folder(rt, place.as_str()) {
        Ok(folder) => folder,
        Err(error) => return Err(errors.stop_of(error)),
    };
    let file = create_part(rt, &part, errors)?;
    let history = HistoryFile {
        place,
        part: Some(part),
        folder,
        file: WatchedWriter::new(Target::History, errors, file),
        held,
    };
    match there {
        Some(there) => history.with_permissions(rt, there.permissions()),
        None => Ok(history),
    }
}

// A file that can't be written to can't be replaced either.
fn see_that_it_opens<R: Files>(rt: &R, path: &str, errors: &WriteErrors) -> Result<(), RunStop>
    ensures { IfErr result IsOutputStop }
{
    let mut options = OpenOptions::new();
    options.write(true);
    match options.open(rt, path) {
        Ok(_) => Ok(()),
        Err(error) => Err(errors.stop_of(error)),
    }
}

// Creates the file of this path, which must not be there: if it is, that is said, and no other reason.
fn create_part<R: Files + Eprint>(
    rt: &R,
    part: &str,
    errors: &WriteErrors,
) -> Result<R::File, RunStop>
    ensures { IfErr result IsOutputStop }
{
    match File::create_new(rt, part) {
        Ok(file) => Ok(file),
        Err(error) if error.kind() == io::ErrorKind::AlreadyExists => {
            let _ = eprintln!(rt;
                "{part} is there: a run is writing it, or was cut off and left it"
            );
            Err(RunStop::WriteFailed)
        }
        Err(error) => Err(errors.stop_of(error)),
    }
}

impl<'a, R: Files + AllocGlobal> HistoryFile<'a, R> {
    // The file with these permissions.
    fn with_permissions(
        self,
        rt: &R,
        permissions: Permissions,
    ) -> Result<HistoryFile<'a, R>, RunStop>
        ensures { IfErr result IsOutputStop }
    {
        match self.file.out.set_permissions(permissions) {
            Ok(()) => Ok(self),
            Err(error) => {
                discard(rt, &self.part);
                Err(self.file.errors.stop_of(error))
            }
        }
    }

    /// Ends a run that ended so and wrote its answers to a writer. Once these are written, its history takes the place
    /// of what is at the path. A run that stopped, or that left no history, leaves that as it was.
    pub fn end<W: Write>(
        self,
        rt: &R,
        out: &mut W,
        ended: Result<Status, RunStop>,
    ) -> Result<Status, RunStop>
        ensures stopped { IfErr ended (λ stop. result ≡ Err stop) }
        ensures ok { IfOk result (λ _. result ≡ ended) }
    {
        let HistoryFile {
            place,
            part,
            folder,
            file,
            held,
        } = self;
        let errors = file.errors;
        let left = match ended {
            Ok(_) => is_left(&file.out, &part),
            Err(_) => Ok(false),
        };
        drop(file);
        let taken = match left {
            Ok(true) => take_place(rt, place.as_str(), &part, &folder, out),
            left => left,
        };
        drop(place);
        drop(folder);
        drop(held);
        match taken {
            Ok(true) => {}
            Ok(false) => discard(rt, &part),
            Err(error) => {
                discard(rt, &part);
                return Err(errors.stop_of(error));
            }
        }
        ended
    }
}

// Writes the answers, and then puts the file beside a place there, if there is one. Whether it is to stay.
fn take_place<R: Files, W: Write>(
    rt: &R,
    place: &str,
    part: &Option<String>,
    folder: &Option<R::File>,
    out: &mut W,
) -> io::Result<bool> {
    match part {
        Some(part) => {
            out.flush()?;
            fs::rename(rt, part, place)?;
            sync_folder(folder)?;
            Ok(true)
        }
        None => Ok(false),
    }
}

// Removes the file beside a path, if there is one.
fn discard<R: Files>(rt: &R, part: &Option<String>) {
    if let Some(part) = part {
        let _ = fs::remove_file(rt, part);
    }
}

// Whether a file has something that is to stay. One that is to take the place of another is synced first.
fn is_left<F: OpenFile>(file: &F, part: &Option<String>) -> io::Result<bool> {
    let has_bytes = file.metadata()?.len() > 0;
    if has_bytes && part.is_some() {
        file.sync_data()?;
    }
    Ok(has_bytes)
}
