// Entries in segments, each with the configuration before it.

ghost use Rattle.std.specs.Prelude.{◌≡◌, ◌<◌, ◌++◌, ◌∷◌, [], length, take, IfOk, IsSome, OnOk, Some};
ghost use Rattle.history.specs.Entries.{replayed};
ghost use Rattle.history.specs.declared.entry.Entry.TheVariants.{Step};
ghost use Rattle.history.specs.HistoryText.{HasLine};
ghost use Rattle.history.specs.Segments.{HasPlace, IsCovered, IsLog, entries_of};

use crate::entry::{Entry, Receipt};
use crate::line::lemma_step_has_line;
use crate::replay::play_all;
use crate::segments::{SEGMENT, Segments};
use app_interface::Application;
use reset_machine::{Config, Event, Reply};
use std::alloc::{AllocError, Global};
use std::snapshot::Snapshot;

// The entries since an opening, and of each segment its checkpoint: the configuration before its first
// entry.
#[derive(Drop)]
pub struct Log<P: Application> {
    pub segments: Segments,
    checkpoints: Vec<Config<P>>,
    // Contracts name the opening. It takes no memory.
    pub opening: Snapshot<Config<P>>,
}

impl<P: Application> Log<P> {
    // No entries since this opening, and no room for one.
    pub fn new(alloc: Global, opening: &Config<P>) -> Log<P>
        ensures log { IsLog P.app P.from_text result }
        ensures opening { result.opening.value ≡ opening.now }
        ensures none { entries_of result.segments ≡ [] }
    {
        Log {
            segments: Segments::new(alloc),
            checkpoints: Vec::new(alloc),
            opening: Snapshot::of(opening),
        }
    }

    // Makes room for an entry more, and its checkpoint, where it will be the first of a segment. This is the
    // configuration now.
    pub fn make_room(&mut self, alloc: Global, now: &Config<P>) -> Result<(), AllocError>
        requires log { IsLog P.app P.from_text self.old }
        requires now { replayed P.app P.from_text self.old.opening.value (entries_of self.old.segments) ≡ Some now.now }
        ensures log { IsLog P.app P.from_text self.new }
        ensures opening { self.new.opening ≡ self.old.opening }
        ensures same { entries_of self.new.segments ≡ entries_of self.old.segments }
        ensures room { OnOk result (HasPlace self.new) }
    {
        self.make_checkpoint(alloc, now)?;
        self.segments.make_room(alloc)
    }

    // Makes the checkpoint of the next entry, where it will be the first of a segment.
    fn make_checkpoint(&mut self, alloc: Global, now: &Config<P>) -> Result<(), AllocError>
        requires log { IsLog P.app P.from_text self.old }
        requires now { replayed P.app P.from_text self.old.opening.value (entries_of self.old.segments) ≡ Some now.now }
        ensures log { IsLog P.app P.from_text self.new }
        ensures opening { self.new.opening ≡ self.old.opening }
        ensures same { self.new.segments ≡ self.old.segments }
        ensures made { OnOk result (IsCovered self.new) }
    {
        if self.segments.len() / SEGMENT < self.checkpoints.len() {
            return Ok(());
        }
        self.checkpoints.reserve(1)?;
        let checkpoint = now.copy(alloc)?;
        self.checkpoints.push_reserved(checkpoint);
        Ok(())
    }

    // Adds an entry, for which there is room.
    pub fn push(&mut self, entry: Entry)
        requires log { IsLog P.app P.from_text self.old }
        requires room { HasPlace self.old }
        requires few { length (entries_of self.old.segments) < 1000000 }
        ensures log { IsLog P.app P.from_text self.new }
        ensures opening { self.new.opening ≡ self.old.opening }
        ensures entries { entries_of self.new.segments ≡ entries_of self.old.segments ++ entry ∷ [] }
    {
        self.segments.push(entry);
    }

    // Adds the entry of a step, for which there is room, and returns its receipt.
    pub fn enter(&mut self, position: usize, event: Event, reply: Reply) -> Receipt
        requires log { IsLog P.app P.from_text self.old }
        requires room { HasPlace self.old }
        requires few { length (entries_of self.old.segments) < 1000000 }
        ensures log { IsLog P.app P.from_text self.new }
        ensures opening { self.new.opening ≡ self.old.opening }
        ensures entries { entries_of self.new.segments ≡ entries_of self.old.segments ++ Step event ∷ [] }
        ensures line { HasLine (Step event) }
        ensures receipt { result ≡ record { position = position; event = event; reply = reply } }
    {
        lemma_step_has_line(event);
        self.push(Entry::Step(event));
        Receipt {
            position,
            event,
            reply,
        }
    }

    // The configuration before the entry with this index.
    pub fn config_before(&self, alloc: Global, index: usize) -> Result<Config<P>, AllocError>
        requires log { IsLog P.app P.from_text self.now }
        requires inside { index < length (entries_of self.now.segments) }
        requires run { IsSome (replayed P.app P.from_text self.now.opening.value (entries_of self.now.segments)) }
        ensures { IfOk result (λ config. replayed P.app P.from_text self.now.opening.value
            (take index (entries_of self.now.segments)) ≡ Some config) }
    {
        let number = index / SEGMENT;
        let mut config = self.checkpoints[number].copy(alloc)?;
        let entries = &self.segments.segment(number)[..index % SEGMENT];
        play_all(alloc, &mut config, entries)?;
        Ok(config)
    }
}
