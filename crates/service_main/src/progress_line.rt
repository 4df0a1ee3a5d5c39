// A line on standard error that says for how long a run has been working, and how far it has come.

ghost use Rattle.std.specs.Prelude.{◌≡◌, OnErr, OnOk};

use crate::progress_text::{Reached, put_reached};
use action_tables::{WriteFault, put_bytes};
use progress::Progress;
use std::io::{IsTerminal, Stderr, Write};
use std::sync::{Condvar, Mutex, Wait};
use std::thread::Threads;
use std::time::{Clock, Duration};
use std::{io, thread};

// To the first column of a terminal, and nothing behind it.
const ERASED: &[u8] = b"\r\x1b[K";

/// The line of a run. It is written each second, by a thread of its own, until the run has ended. On a terminal it is
/// written over the last one, and until the run has something to write itself, perhaps to the same terminal.
#[derive(Drop)]
pub struct ProgressLine {
    /// Whether it goes to a terminal.
    pub is_on_terminal: bool,
    errors: Stderr,
    state: Mutex<LineState>,
    changed: Condvar,
}

#[derive(Drop)]
struct LineState {
    is_written: bool,
    has_ended: bool,
}

/// The work of which a line says how far it has come.
#[derive(Clone, Copy)]
pub struct Work<'a> {
    /// The name of the subcommand.
    pub name: &'a str,
    /// How far it has come.
    pub progress: &'a Progress,
    /// Whether all that it will come to is known from the beginning.
    pub is_measured: bool,
}

impl ProgressLine {
    /// A line that isn't written yet. Where standard error is no terminal there is one only if it is asked for.
    pub fn new(errors: Stderr, is_asked_for: bool) -> Option<ProgressLine> {
        let is_on_terminal = errors.is_terminal();
        if !is_on_terminal && !is_asked_for {
            return None;
        }
        Some(ProgressLine {
            is_on_terminal,
            errors,
            state: Mutex::new(LineState {
                is_written: false,
                has_ended: false,
            }),
            changed: Condvar::new(),
        })
    }

    /// Does the work with the line, or without where no thread can be started.
    pub fn during<R: Clock + Threads + Wait + Sync, T, F: FnOnce() -> T>(
        &self,
        rt: &R,
        work: Work<'_>,
        run: F,
    ) -> T
        requires { F.IsAlwaysCallable run }
        ensures { F.post run result }
    {
        thread::scope(thread::scope_env(), rt, |scope| {
            match scope.spawn(move || self.write_each_second(rt, work)) {
                Ok(writer) => {
                    let answer = run();
                    self.end(rt);
                    writer.join(rt);
                    answer
                }
                Err(_) => run(),
            }
        })
    }

    // Erases the line if it is written. From then on it isn't.
    fn end(&self, rt: &impl Wait) {
        let mut state = self.state.lock(rt);
        state.has_ended = true;
        if state.is_written {
            let mut errors = self.errors;
            let _ = put_bytes(&mut errors, ERASED);
            state.is_written = false;
        }
        self.changed.notify_one();
    }

    fn write_each_second<R: Clock + Wait>(&self, rt: &R, work: Work<'_>) {
        for seconds in 1..u32::MAX {
            if self.ends_within_a_second(rt, work, seconds) {
                return;
            }
        }
    }

    // Waits for the end, but a second at most, and then writes the line. Whether the end came.
    fn ends_within_a_second<R: Clock + Wait>(&self, rt: &R, work: Work<'_>, seconds: u32) -> bool {
        let (mut state, _) = self.changed.wait_timeout_while(
            rt,
            self.state.lock(rt),
            Duration::from_secs(1),
            |state| !state.has_ended,
        );
        if !state.has_ended {
            let _ = self.put_line(work, seconds);
            state.is_written = self.is_on_terminal;
        }
        state.has_ended
    }

    // Writes the line over what was in it, or behind what was written before.
    fn put_line(&self, work: Work<'_>, seconds: u32) -> Result<(), WriteFault> {
        let mut errors = self.errors;
        if self.is_on_terminal {
            put_bytes(&mut errors, ERASED)?;
        }
        put_bytes(&mut errors, work.name.as_bytes())?;
        put_bytes(&mut errors, b": ")?;
        let (done, known) = work.progress.reached();
        let reached = Reached {
            seconds,
            done,
            known,
        };
        put_reached(&mut errors, reached, work.is_measured)?;
        if self.is_on_terminal {
            return Ok(());
        }
        put_bytes(&mut errors, b"\n")
    }
}

/// A writer that ends the line, if there is one, before it writes.
#[derive(Drop)]
pub struct BelowLine<'a, R: Wait, W: Write + Drop> {
    rt: &'a R,
    line: Option<&'a ProgressLine>,
    out: W,
}

impl<'a, R: Wait, W: Write + Drop> BelowLine<'a, R, W> {
    pub fn new(rt: &'a R, line: Option<&'a ProgressLine>, out: W) -> BelowLine<'a, R, W>
        ensures { result.out ≡ out }
    {
        BelowLine { rt, line, out }
    }
}

impl<R: Wait, W: Write + Drop> Write for BelowLine<'_, R, W> {
    ghost contents = { λ below. W.contents below.out };

    fn write(&mut self, buf: &[u8]) -> io::Result<usize> {
        if let Some(line) = self.line {
            line.end(self.rt);
        }
        self.out.write(buf)
    }

    fn flush(&mut self) -> io::Result<()> {
        self.out.flush()
    }
}
