// How a run ends.

ghost use Rattle.std.specs.Prelude.{◌≡◌, Err, IfErr, IfOk, Ok, Some};
ghost use Rattle.script_replay.specs.StopText.{stop_text};
ghost use Rattle.script_replay.specs.declared.status.RunStop.TheVariants.{NoMemory, WriteFailed};

use action_tables::WriteFault;
use std::alloc::AllocError;
use std::error::Error;
use std::fmt;

/// How a run that came to its end judges its texts.
#[derive(Clone, Copy, Debug, PartialEq, Eq)]
pub enum Status {
    /// Both texts were good. Refused commands are good too.
    Good,
    /// They were good, and the check at the end found faults.
    FaultsFound,
    /// They were good, and an entry of the history isn't allowed where it stands.
    NotEnabled,
    /// The topology, the script or the history is bad, or one of its lines.
    BadInput,
}

/// What a run of a script is for.
#[derive(Clone, Copy, Debug, PartialEq, Eq)]
pub enum Purpose {
    /// Its answers.
    Replay,
    /// Its answers, and the faults of the configuration that it leaves.
    Check {
        /// Whether each fault of the tree or of the wave is followed by the event that repairs it.
        repairs: bool,
    },
}

/// What cut a run short: the first that came.
#[derive(Clone, Copy, Debug, PartialEq, Eq)]
pub enum RunStop {
    /// The reader failed. Nothing was written.
    ReadFailed,
    /// The writer failed. What it took until then is a prefix of the output.
    WriteFailed,
    /// A growth was refused. What was written until then is a prefix of the output.
    NoMemory,
    /// A thread could not be started. Nothing was written.
    ThreadFailed,
    /// What node threads kept isn't a history of what their seats were answered. Nothing was written.
    NotClosed,
}

impl From<WriteFault> for RunStop {
    ghost from_gives = { λ _ s. s ≡ WriteFailed };

    fn from(_fault: WriteFault) -> RunStop {
        RunStop::WriteFailed
    }
}

impl From<AllocError> for RunStop {
    ghost from_gives = { λ _ s. s ≡ NoMemory };

    fn from(_error: AllocError) -> RunStop {
        RunStop::NoMemory
    }
}

/// What a run ends as that wrote this last: a writer that failed stops it.
#[inline(always)]
pub(crate) fn written(put: Result<(), WriteFault>) -> Result<(), RunStop>
    ensures ok { IfOk put (λ done. result ≡ Ok done) }
    ensures err { IfErr put (λ fault. result ≡ Err WriteFailed) }
    ensures stop { IfErr result (λ stop. stop ≡ WriteFailed) }
{
    Ok(put?)
}

impl fmt::Display for RunStop {
    ghost output = { λ stop. Some (stop_text stop) };

    fn fmt<W: fmt::Write>(&self, f: &mut fmt::Formatter<W>) -> fmt::Result {
        f.write_str(match self {
            RunStop::ReadFailed => "read fault",
            RunStop::WriteFailed => "write fault",
            RunStop::NoMemory => "out of memory",
            RunStop::ThreadFailed => "thread fault",
            RunStop::NotClosed => "lists differ",
        })
    }
}

impl Error for RunStop {}
