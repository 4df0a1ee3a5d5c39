// Sessions.

ghost use Rattle.std.specs.Prelude.{◌≡◌, ◌+◌, ◌<◌, ◌≤◌, ◌^◌, ◌++◌, [], false, ℕ, List, length, IfOk, None, OnErr, OnOk};
ghost use Rattle.std.specs.Prelude.{Some};
ghost use Rattle.applications.specs.Meaning.{meaning_of};
ghost use Rattle.history.specs.HistoryText.{IsReadWhole, ended};
ghost use Rattle.script_replay.specs.Parts.{HasFitting, next_text};
ghost use Rattle.reset_model.specs.EventText.{Fits, event_line};
ghost use Rattle.live_session.specs.Course.{IsCutShort, IsDone, course, is_exit};

use crate::answering::{answer_kept, answer_text, answer_unkept};
use crate::batch::Batch;
use crate::partial::go_on;
use action_tables::WriteFault;
use app_invariants::Invariant;
use reset_machine::{Config, Event};
use script_replay::{NextLine, RunStop, first_line_of, split_line};
use std::alloc::{AllocError, Global};
use std::io::{Read, Write};
use std::mem;

// The most bytes that are asked of the reader at once.
const CHUNK: usize = 8192;

// No reader gives so many lines: a bound, so that a session is seen to end.
const MOST_LINES: u64 = u64::MAX - 8192 - 8192;

/// Answers commands as a reader gives them, from this configuration on, and keeps what they did as the entries of a
/// history that has room for so many more, if there is one: `None` keeps none. The answer is the configuration that the
/// commands leave.
///
/// All that was read is answered before the next read, and what was answered is kept and flushed before: entries first,
/// and their answers when the history was flushed. A bad line is answered by its number, counted from 1, and the session
/// goes on; the line `exit` ends it, as the end of the input does. Where the history is full a command that could leave
/// an entry is refused.
///
/// # Errors
///
/// `ReadFailed` where the reader fails, `WriteFailed` where one of the writers does, and `NoMemory`. What was answered
/// until then is kept.
pub fn run_session<P: Invariant, R: Read, H: Write, W: Write>(
    alloc: Global,
    config: Config<P>,
    room: Option<u64>,
    input: &mut R,
    log: &mut H,
    out: &mut W,
) -> Result<Config<P>, RunStop>
    ensures done { IfOk result (λ left. (text : List ℕ) × IsReadWhole (R.remaining input.old) text
        × (left ≡ (course (meaning_of P.app P.text P.from_text P.names P.counts) room config text).config)
        × IsDone room (course (meaning_of P.app P.text P.from_text P.names P.counts) room config text).exchanges
        (H.contents log.old) (H.contents log.new) (W.contents out.old) (W.contents out.new)) }
    ensures cut { OnErr result ((text : List ℕ) × IsReadWhole (R.remaining input.old) text
        × IsCutShort room (course (meaning_of P.app P.text P.from_text P.names P.counts) room config text).exchanges
        (H.contents log.old) (H.contents log.new) (W.contents out.old) (W.contents out.new)) }
{
    let mut session = Session::new(alloc, config, room);
    let ended = session.converse(alloc, input, log, out);
    let left = session.into_config();
    match ended {
        Ok(()) => Ok(left),
        Err(stop) => {
            drop(left);
            Err(stop)
        }
    }
}

// A session between two lines, or within one.
#[derive(Drop)]
struct Session<P: Invariant> {
    config: Config<P>,
    // For how many entries the history has room, if there is one.
    room: Option<u64>,
    // The number of the line that comes.
    number: u64,
    // What was read of it.
    partial: Vec<u8>,
    batch: Batch,
}

impl<P: Invariant> Session<P> {
    ghost use Rattle.live_session.specs.Progress.{Comes, HasDone, HasEndedWith, HasTaken, IsAt, IsCut, IsFront, Start};

    // Before the first line.
    fn new(alloc: Global, config: Config<P>, room: Option<u64>) -> Session<P>
        ensures config { result.config ≡ config }
        ensures room { result.room ≡ room }
        ensures number { result.number ≡ 1 }
        ensures partial { result.partial.items ≡ [] }
        ensures entries { result.batch.entries.items ≡ [] }
        ensures answers { result.batch.answers.items ≡ [] }
    {
        Session {
            config,
            room,
            number: 1,
            partial: Vec::new(alloc),
            batch: Batch::new(alloc),
        }
    }

    fn into_config(self) -> Config<P>
        ensures { result ≡ self.config }
    {
        let Session {
            config,
            partial,
            batch,
            ..
        } = self;
        drop(partial);
        drop(batch);
        config
    }

    // Answers the lines of a reader to its end, or to the line that ends the session.
    fn converse<R: Read, H: Write, W: Write>(
        &mut self,
        alloc: Global,
        input: &mut R,
        log: &mut H,
        out: &mut W,
    ) -> Result<(), RunStop>
        ensures done { OnOk result ((s : Start P.Local)
            → IsAt (meaning_of P.app P.text P.from_text P.names P.counts)
            s [] self.old (H.contents log.old) (W.contents out.old)
            → (text : List ℕ) × IsReadWhole (R.remaining input.old) text
            × HasDone (meaning_of P.app P.text P.from_text P.names P.counts) s text self.new.config (H.contents log.new)
            (W.contents out.new)) }
        ensures cut { OnErr result ((s : Start P.Local)
            → IsAt (meaning_of P.app P.text P.from_text P.names P.counts)
            s [] self.old (H.contents log.old) (W.contents out.old)
            → (text : List ℕ) × IsReadWhole (R.remaining input.old) text
            × IsCut (meaning_of P.app P.text P.from_text P.names P.counts)
            s text (H.contents log.new) (W.contents out.new)) }
    {
        let mut chunk = [0; CHUNK];
        for _ in 0..u64::MAX {
            match self.batch.commit(log, out) {
                Ok(()) => {}
                Err(WriteFault) => return Err(RunStop::WriteFailed),
            }
            let Ok(count) = input.read(&mut chunk) else {
                return Err(RunStop::ReadFailed);
            };
            if self.number > MOST_LINES {
                return Err(RunStop::ReadFailed);
            }
            if count == 0 {
                return self.end(alloc, log, out);
            }
            match self.take_bytes(alloc, &chunk[..count], log, out) {
                Ok(false) => {}
                Ok(true) => return self.leave(log, out),
                Err(stop) => return Err(stop),
            }
        }
        Err(RunStop::ReadFailed)
    }

    // The input ends here, and with it the last line, which has no line feed.
    fn end<H: Write, W: Write>(
        &mut self,
        alloc: Global,
        log: &mut H,
        out: &mut W,
    ) -> Result<(), RunStop>
        requires { self.old.number + 1 < 2 ^ 64 }
        ensures done { OnOk result ((s : Start P.Local) (given : List ℕ)
            → IsAt (meaning_of P.app P.text P.from_text P.names P.counts) s given self.old (H.contents log.old)
            (W.contents out.old)
            → HasDone (meaning_of P.app P.text P.from_text P.names P.counts)
            s given self.new.config (H.contents log.new)
            (W.contents out.new)) }
        ensures cut { OnErr result ((s : Start P.Local) (given : List ℕ)
            → IsAt (meaning_of P.app P.text P.from_text P.names P.counts) s given self.old (H.contents log.old)
            (W.contents out.old)
            → IsCut (meaning_of P.app P.text P.from_text P.names P.counts)
            s given (H.contents log.new) (W.contents out.new)) }
    {
        match self.take_partial(alloc) {
            Ok(_) => self.leave(log, out),
            Err(AllocError) => Err(RunStop::NoMemory),
        }
    }

    // Writes what is held back, when the session has ended.
    fn leave<H: Write, W: Write>(&mut self, log: &mut H, out: &mut W) -> Result<(), RunStop>
        ensures done { OnOk result ((s : Start P.Local) (text : List ℕ)
            → HasEndedWith (meaning_of P.app P.text P.from_text P.names P.counts) s text self.old (H.contents log.old)
            (W.contents out.old)
            → HasDone (meaning_of P.app P.text P.from_text P.names P.counts) s text self.new.config (H.contents log.new)
            (W.contents out.new)) }
        ensures cut { OnErr result ((s : Start P.Local) (text : List ℕ)
            → HasEndedWith (meaning_of P.app P.text P.from_text P.names P.counts) s text self.old (H.contents log.old)
            (W.contents out.old)
            → IsCut (meaning_of P.app P.text P.from_text P.names P.counts)
            s text (H.contents log.new) (W.contents out.new)) }
    {
        match self.batch.commit(log, out) {
            Ok(()) => Ok(()),
            Err(WriteFault) => Err(RunStop::WriteFailed),
        }
    }

    // Answers the lines that end within these bytes. Whether one of them ends the session.
    fn take_bytes<H: Write, W: Write>(
        &mut self,
        alloc: Global,
        bytes: &[u8],
        log: &mut H,
        out: &mut W,
    ) -> Result<bool, RunStop>
        requires { self.old.number + length bytes.now + 1 < 2 ^ 64 }
        ensures ok { IfOk result (λ ends. (s : Start P.Local) (given : List ℕ)
            → IsAt (meaning_of P.app P.text P.from_text P.names P.counts) s given self.old (H.contents log.old)
            (W.contents out.old)
            → Comes ends (meaning_of P.app P.text P.from_text P.names P.counts) s (given ++ bytes.now) self.new
            (H.contents log.new) (W.contents out.new)) }
        ensures cut { OnErr result ((s : Start P.Local) (given more : List ℕ)
            → IsAt (meaning_of P.app P.text P.from_text P.names P.counts) s given self.old (H.contents log.old)
            (W.contents out.old)
            → IsCut (meaning_of P.app P.text P.from_text P.names P.counts) s ((given ++ bytes.now) ++ more)
            (H.contents log.new) (W.contents out.new)) }
    {
        if self.partial.is_empty() {
            return self.take_lines(alloc, bytes, log, out);
        }
        match split_line(bytes) {
            None => match go_on(&mut self.partial, bytes) {
                Ok(()) => Ok(false),
                Err(AllocError) => Err(RunStop::NoMemory),
            },
            Some((end, after)) => match self.end_partial(alloc, end) {
                Ok(false) => self.take_lines(alloc, after, log, out),
                Ok(true) => Ok(true),
                Err(AllocError) => Err(RunStop::NoMemory),
            },
        }
    }

    // The same where no line was begun.
    fn take_lines<H: Write, W: Write>(
        &mut self,
        alloc: Global,
        bytes: &[u8],
        log: &mut H,
        out: &mut W,
    ) -> Result<bool, RunStop>
        requires none { self.old.partial.items ≡ [] }
        requires few { self.old.number + length bytes.now < 2 ^ 64 }
        ensures ok { IfOk result (λ ends. (s : Start P.Local) (given : List ℕ)
            → IsAt (meaning_of P.app P.text P.from_text P.names P.counts) s given self.old (H.contents log.old)
            (W.contents out.old)
            → Comes ends (meaning_of P.app P.text P.from_text P.names P.counts) s (given ++ bytes.now) self.new
            (H.contents log.new) (W.contents out.new)) }
        ensures cut { OnErr result ((s : Start P.Local) (given more : List ℕ)
            → IsAt (meaning_of P.app P.text P.from_text P.names P.counts) s given self.old (H.contents log.old)
            (W.contents out.old)
            → IsCut (meaning_of P.app P.text P.from_text P.names P.counts) s ((given ++ bytes.now) ++ more)
            (H.contents log.new) (W.contents out.new)) }
    {
        let mut rest = bytes;
        while let Some((line, after)) = first_line_of(rest) {
            match self.take_line(alloc, line, &rest[..rest.len() - after.len()]) {
                Ok(false) => {}
                Ok(true) => return Ok(true),
                Err(AllocError) => return Err(RunStop::NoMemory),
            }
            if self.batch.is_large() {
                match self.batch.commit(log, out) {
                    Ok(()) => {}
                    Err(WriteFault) => return Err(RunStop::WriteFailed),
                }
            }
            rest = after;
        }
        match go_on(&mut self.partial, rest) {
            Ok(()) => Ok(false),
            Err(AllocError) => Err(RunStop::NoMemory),
        }
    }

    // Answers a line, which has this text with its line feed. Whether it ends the session.
    #[inline(always)]
    fn take_line(
        &mut self,
        alloc: Global,
        line: NextLine<'_>,
        whole: &[u8],
    ) -> Result<bool, AllocError>
        requires fits { HasFitting line }
        requires whole { whole.now ≡ ended (next_text line) }
        requires few { self.old.number + 1 < 2 ^ 64 }
        ensures taken { IfOk result (λ ends. HasTaken (meaning_of P.app P.text P.from_text P.names P.counts)
            (next_text line.entry) ends self.old self.new) }
        ensures partial { self.new.partial ≡ self.old.partial }
    {
        match line {
            NextLine::Event(event) => {
                self.take_event(alloc, event, whole)?;
                Ok(false)
            }
            NextLine::Text(text) => self.take_text(alloc, text),
        }
    }

    // Answers the line of an event, which has this text with its line feed.
    #[inline(always)]
    fn take_event(&mut self, alloc: Global, event: Event, line: &[u8]) -> Result<(), AllocError>
        requires fits { Fits event }
        requires line { line.now ≡ ended (event_line event) }
        requires few { self.old.number + 1 < 2 ^ 64 }
        ensures taken { OnOk result (HasTaken (meaning_of P.app P.text P.from_text P.names P.counts)
            (event_line event) false
            self.old self.new) }
        ensures partial { self.new.partial ≡ self.old.partial }
    {
        match self.room {
            None => self.take_unkept(alloc, event),
            Some(room) => self.take_kept(alloc, room, event, line),
        }
    }

    // The same where the session keeps no history: nothing of its room is read or written.
    #[inline(always)]
    fn take_unkept(&mut self, alloc: Global, event: Event) -> Result<(), AllocError>
        requires fits { Fits event }
        requires room { self.old.room ≡ None }
        requires few { self.old.number + 1 < 2 ^ 64 }
        ensures taken { OnOk result (HasTaken (meaning_of P.app P.text P.from_text P.names P.counts)
            (event_line event) false
            self.old self.new) }
        ensures partial { self.new.partial ≡ self.old.partial }
    {
        answer_unkept(alloc, &mut self.config, event, &mut self.batch)?;
        self.number += 1;
        Ok(())
    }

    // The same where its history has this room. A function of its own, so that a session without a history has all that it
    // needs in its loop.
    #[inline(never)]
    fn take_kept(
        &mut self,
        alloc: Global,
        room: u64,
        event: Event,
        line: &[u8],
    ) -> Result<(), AllocError>
        requires fits { Fits event }
        requires line { line.now ≡ ended (event_line event) }
        requires room { self.old.room ≡ Some room }
        requires few { self.old.number + 1 < 2 ^ 64 }
        ensures taken { OnOk result (HasTaken (meaning_of P.app P.text P.from_text P.names P.counts)
            (event_line event) false
            self.old self.new) }
        ensures partial { self.new.partial ≡ self.old.partial }
    {
        let left = answer_kept(alloc, &mut self.config, room, event, line, &mut self.batch)?;
        self.room = Some(left);
        self.number += 1;
        Ok(())
    }

    // Answers the line with this text. Whether it ends the session.
    fn take_text(&mut self, alloc: Global, text: &[u8]) -> Result<bool, AllocError>
        requires { self.old.number + 1 < 2 ^ 64 }
        ensures taken { IfOk result (λ ends. HasTaken (meaning_of P.app P.text P.from_text P.names P.counts)
            text.now ends
            self.old self.new) }
        ensures partial { self.new.partial ≡ self.old.partial }
        ensures number { OnOk result (self.new.number ≤ self.old.number + 1) }
    {
        if is_exit(text) {
            return Ok(true);
        }
        self.room = answer_text(
            alloc,
            &mut self.config,
            self.room,
            self.number,
            text,
            &mut self.batch,
        )?;
        self.number += 1;
        Ok(false)
    }

    // Answers the line that was begun, which ends with these bytes. Whether it ends the session.
    fn end_partial(&mut self, alloc: Global, bytes: &[u8]) -> Result<bool, AllocError>
        requires { self.old.number + 1 < 2 ^ 64 }
        ensures taken { IfOk result (λ ends. (line : List ℕ) → IsFront self.old.partial.items line
            → HasTaken (meaning_of P.app P.text P.from_text P.names P.counts)
            (line ++ bytes.now) ends self.old self.new) }
        ensures partial { OnOk result (self.new.partial.items ≡ []) }
        ensures number { OnOk result (self.new.number ≤ self.old.number + 1) }
    {
        match go_on(&mut self.partial, bytes) {
            Ok(()) => self.take_partial(alloc),
            Err(AllocError) => Err(AllocError),
        }
    }

    // Answers the line that was begun, which ends here. Whether it ends the session.
    fn take_partial(&mut self, alloc: Global) -> Result<bool, AllocError>
        requires { self.old.number + 1 < 2 ^ 64 }
        ensures taken { IfOk result (λ ends. (line : List ℕ) → IsFront self.old.partial.items line
            → HasTaken (meaning_of P.app P.text P.from_text P.names P.counts) line ends self.old self.new) }
        ensures partial { OnOk result (self.new.partial.items ≡ []) }
        ensures number { OnOk result (self.new.number ≤ self.old.number + 1) }
    {
        let line = mem::replace(&mut self.partial, Vec::new(alloc));
        self.take_text(alloc, &line)
    }
}

fn is_exit(line: &[u8]) -> bool
    ensures { result ≡ is_exit line.now }
{
    line == b"exit".as_slice()
}
