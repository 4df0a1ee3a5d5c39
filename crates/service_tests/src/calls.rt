// The calls that run a script, the script of one wave, and what each call writes of it.

use reset_service::{RunStop, Status, check_text, read_text, replay, replay_text};
use std::alloc::Global;
use std::io::{Read, Write};

pub(crate) const LINE: &[u8] = b"nodes = [1, 2, 3]\nlinks = [[1, 2], [2, 3]]\napp = \"idle\"\n";

pub(crate) const ONE_WAVE: &[u8] =
    b"request 1\nrelay 2 1\nrelay 3 2\nopen 3\njoin 2\njoin 1\nfinish 1\nfinish 2\nfinish 3\nshow\n";

const WAVE_ANSWERS: &[u8] =
    b"applied\napplied\napplied\napplied\napplied\napplied\napplied\napplied\ncomplete 1\n\
      node 1 tree 3 2 2 wave normal 1 local -\n\
      node 2 tree 3 3 1 wave normal 1 local -\n\
      node 3 tree 3 3 0 wave normal 1 local -\n";

const CHECKED_ANSWERS: &[u8] =
    b"applied\napplied\napplied\napplied\napplied\napplied\napplied\napplied\ncomplete 1\n\
      node 1 tree 3 2 2 wave normal 1 local -\n\
      node 2 tree 3 3 1 wave normal 1 local -\n\
      node 3 tree 3 3 0 wave normal 1 local -\nfaults 0\n";

/// A call that runs a script.
#[derive(Clone, Copy, Debug)]
pub(crate) enum Call {
    /// `replay_text`, of the bytes that `read_text` gives.
    Text,
    /// `replay`, which judges its topology before it reads.
    Replay,
    /// `check_text`, likewise.
    Check,
}

/// The calls that take a reader themselves.
pub(crate) const READING: [Call; 2] = [Call::Replay, Call::Check];

/// All of them.
pub(crate) const ALL: [Call; 3] = [Call::Text, Call::Replay, Call::Check];

impl Call {
    /// Runs the script that the reader gives.
    pub(crate) fn run<R: Read, W: Write>(
        self,
        alloc: Global,
        topology: &[u8],
        script: &mut R,
        out: &mut W,
    ) -> Result<Status, RunStop> {
        match self {
            Call::Text => {
                let script = read_text(alloc, script)?;
                replay_text(alloc, topology, &script, out)
            }
            Call::Replay => replay(alloc, topology, script, out),
            Call::Check => check_text(alloc, topology, script, out),
        }
    }

    /// What it writes of one wave on the line of three nodes.
    pub(crate) fn answers(self) -> &'static [u8] {
        match self {
            Call::Text | Call::Replay => WAVE_ANSWERS,
            Call::Check => CHECKED_ANSWERS,
        }
    }
}
