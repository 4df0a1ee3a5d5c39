// What is wrong with a history.

use crate::said::{Source, put_end, put_head, put_line_number};
use action_tables::{Part, WriteFault, put_bytes, put_parts};
use history::{BookFault, read_book};
use script_replay::{RunStop, read_network};
use std::alloc::Global;
use std::io::{Read, Write};
use topology::ReadFault;

/// Writes what is wrong with the history of this file that a reader gives, and where; returns whether it wrote. Of a bad
/// topology nothing is said here, and neither of a reader that fails, nor of an entry that isn't allowed where it stands.
pub fn put_history_fault<R: Read, W: Write>(
    alloc: Global,
    topology: Source<'_>,
    name: &str,
    history: &mut R,
    out: &mut W,
) -> Result<bool, RunStop> {
    let modulus = match read_network(alloc, topology.text) {
        Ok(network) => network.modulus.get(),
        Err(ReadFault::NoMemory) => return Err(RunStop::NoMemory),
        Err(_) => return Ok(false),
    };
    let fault = match read_book(alloc, history) {
        Ok(book) if book.modulus == modulus => return Ok(false),
        Ok(book) => {
            put_other_modulus(name, book.modulus, topology.name, modulus, out)?;
            return Ok(true);
        }
        Err(BookFault::NoMemory) => return Err(RunStop::NoMemory),
        Err(BookFault::ReadFailed) => return Ok(false),
        Err(fault) => fault,
    };
    put_head(out, name)?;
    put_fault(fault, out)?;
    put_end(out)?;
    Ok(true)
}

fn put_fault<W: Write>(fault: BookFault, out: &mut W) -> Result<(), WriteFault> {
    match fault {
        BookFault::BadLine(1) => put_bytes(
            out,
            b"line 1: no line of a history: the first is 'reset-history 3 M'",
        ),
        BookFault::BadLine(number) => {
            put_line_number(out, number as u64)?;
            put_bytes(
                out,
                b"no line of a history: each is an event or a fault, and ends with a line feed",
            )
        }
        BookFault::BadVersion => put_bytes(out, b"line 1: the version of a history is 1, 2 or 3"),
        BookFault::TooLong => put_bytes(out, b"it has more than 1000000 entries"),
        BookFault::NoMemory | BookFault::ReadFailed => Ok(()),
    }
}

fn put_other_modulus<W: Write>(
    name: &str,
    modulus: u64,
    topology: &str,
    other: u64,
    out: &mut W,
) -> Result<(), WriteFault> {
    put_head(out, name)?;
    put_parts(
        out,
        &[
            Part::Text(b"sessions are counted modulo "),
            Part::Number(modulus),
            Part::Text(b", and by "),
            Part::Text(topology.as_bytes()),
            Part::Text(b" modulo "),
            Part::Number(other),
        ],
    )?;
    put_end(out)
}
