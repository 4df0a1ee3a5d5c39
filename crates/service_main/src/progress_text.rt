// What a line says of how far a run has come.

ghost use Rattle.std.specs.Prelude.{◌≡◌, ◌<◌, ◌≤◌, OnErr, OnOk};
ghost use Rattle.std.specs.Io.KnownBytes.{Appends};
ghost use Rattle.action_tables.specs.Written.{AppendsPrefix};
ghost use Rattle.service_main.specs.ProgressText.{found_text, pace_text, seconds_text, share_text};

use action_tables::{Part, WriteFault, put_parts};
use std::io::Write;

/// How far a run has come.
#[derive(Clone, Copy, Debug, PartialEq, Eq)]
pub struct Reached {
    /// For how many seconds it has been working.
    pub seconds: u32,
    /// How much is done.
    pub done: u32,
    /// How much is known, what is done included.
    pub known: u32,
}

/// Writes how far a run has come: by the part that is done, where all is known from the beginning, and else by what was
/// found. Before anything is known, the seconds alone.
pub fn put_reached<W: Write>(
    out: &mut W,
    reached: Reached,
    is_measured: bool,
) -> Result<(), WriteFault>
    requires { reached.done ≤ reached.known }
{
    let Reached {
        seconds,
        done,
        known,
    } = reached;
    if seconds == 0 || done == 0 {
        return put_seconds(out, seconds);
    }
    if is_measured {
        put_share(out, seconds, done, known)
    } else {
        put_search(out, seconds, done, known)
    }
}

// Writes for how many seconds a run has been working.
fn put_seconds<W: Write>(out: &mut W, seconds: u32) -> Result<(), WriteFault>
    ensures ok { OnOk result (Appends (W.contents out.old) (W.contents out.new) (seconds_text seconds)) }
    ensures err { OnErr result (AppendsPrefix (W.contents out.old) (W.contents out.new) (seconds_text seconds)) }
{
    put_parts(out, &[Part::Number(u64::from(seconds)), Part::Text(b" s")])
}

// Writes the part that is done, and how long the rest will take at that pace.
fn put_share<W: Write>(out: &mut W, seconds: u32, done: u32, all: u32) -> Result<(), WriteFault>
    requires some { 0 < done }
    requires within { done ≤ all }
    ensures ok { OnOk result (Appends (W.contents out.old) (W.contents out.new) (share_text seconds done all)) }
    ensures err { OnErr result (AppendsPrefix (W.contents out.old) (W.contents out.new) (share_text seconds done all)) }
{
    let percent = u64::from(done) * 100 / u64::from(all);
    let left = u64::from(seconds) * u64::from(all - done) / u64::from(done);
    put_parts(
        out,
        &[
            Part::Number(percent),
            Part::Text(b" %, "),
            Part::Number(left),
            Part::Text(b" s left"),
        ],
    )
}

// Writes how many configurations are found, how many of them are still to be followed, how many were found a second, and for
// how many seconds the run has been working.
fn put_search<W: Write>(out: &mut W, seconds: u32, done: u32, found: u32) -> Result<(), WriteFault>
    requires some { 0 < seconds }
    requires within { done ≤ found }
{
    put_found(out, u64::from(found), u64::from(found - done))?;
    put_pace(out, seconds, found)
}

fn put_found<W: Write>(out: &mut W, found: u64, rest: u64) -> Result<(), WriteFault>
    ensures ok { OnOk result (Appends (W.contents out.old) (W.contents out.new) (found_text found rest)) }
    ensures err { OnErr result (AppendsPrefix (W.contents out.old) (W.contents out.new) (found_text found rest)) }
{
    put_parts(
        out,
        &[
            Part::Number(found),
            Part::Text(b" configurations, "),
            Part::Number(rest),
            Part::Text(b" to follow, "),
        ],
    )
}

fn put_pace<W: Write>(out: &mut W, seconds: u32, found: u32) -> Result<(), WriteFault>
    requires { 0 < seconds }
    ensures ok { OnOk result (Appends (W.contents out.old) (W.contents out.new) (pace_text seconds found)) }
    ensures err { OnErr result (AppendsPrefix (W.contents out.old) (W.contents out.new) (pace_text seconds found)) }
{
    let pace = u64::from(found / seconds);
    put_parts(
        out,
        &[
            Part::Number(pace),
            Part::Text(b" a second, "),
            Part::Number(u64::from(seconds)),
            Part::Text(b" s"),
        ],
    )
}
