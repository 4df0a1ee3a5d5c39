// What the file of a session's history begins with.

use crate::files::open_file;
use crate::kept_file::KeptFile;
use reset_service::RunStop;
use script_replay::read_network;
use std::alloc::Global;
use std::io::{ErrorKind, Read};
use std::rt::Files;
use topology::ReadFault;

// More bytes than any first line has.
const START: u64 = 64;

// The modulus of a history of version 1.
const ALL_SESSIONS: u64 = 4_294_967_296;

/// What the file of a session's history begins with.
#[derive(Clone, Copy, Debug, PartialEq, Eq)]
pub enum Beginning {
    /// Nothing, or a part of the first line of a new history, which only a crash leaves.
    New,
    /// The first line of an older version, in which there are no lines for some of the faults.
    Older,
    /// Anything else: a history that goes on, if it verifies.
    Kept,
}

/// What a file begins with, from which a session on the network of this topology text may go on.
pub fn beginning_of<R: Files + AllocGlobal>(
    rt: &R,
    topology: &[u8],
    path: &str,
    log: &KeptFile<'_, R>,
) -> Result<Beginning, RunStop> {
    if log.judged() == 0 {
        return Ok(Beginning::New);
    }
    let mut start = Vec::new(rt.alloc());
    match open_file(rt, path)?.take(START).read_to_end(&mut start) {
        Ok(_) => beginning_by(rt.alloc(), topology, &start),
        Err(error) if error.kind() == ErrorKind::OutOfMemory => Err(RunStop::NoMemory),
        Err(_) => Err(RunStop::ReadFailed),
    }
}

// The same by its first bytes. On a network that is bad no history goes on, whatever it begins with.
fn beginning_by(alloc: Global, topology: &[u8], start: &[u8]) -> Result<Beginning, RunStop> {
    let network = match read_network(alloc, topology) {
        Ok(network) => network,
        Err(ReadFault::NoMemory) => return Err(RunStop::NoMemory),
        Err(_) => return Ok(Beginning::Kept),
    };
    let modulus = network.modulus.get();
    let own = format!(in alloc; "reset-history 3 {modulus}\n")?;
    if start.len() < own.len() && own.as_bytes().starts_with(start) {
        return Ok(Beginning::New);
    }
    let second = format!(in alloc; "reset-history 2 {modulus}\n")?;
    let is_first = modulus == ALL_SESSIONS && start.starts_with(b"reset-history 1\n");
    if is_first || start.starts_with(second.as_bytes()) {
        return Ok(Beginning::Older);
    }
    Ok(Beginning::Kept)
}
