// Entries that are played as they are read.

ghost use Rattle.std.specs.Prelude.{◌≡◌, ℕ, ◌+◌, ◌<◌, ◌^◌, ◌++◌, [], List, length};
ghost use Rattle.reset_model.specs.Configuration.{Configuration};
ghost use Rattle.history.specs.declared.entry.Entry.{Entry};
ghost use Rattle.history.specs.Played.{IsKept};

use crate::entry::{Entry, Summary};
use crate::player::{PlayFault, Player};
use crate::verification::{JudgeFault, Refused, Resumed};
use app_interface::Application;
use reset_machine::Config;
use std::alloc::Global;

// Why a verifier plays no further.
#[derive(Drop)]
pub enum Stop {
    // This entry isn't allowed where it stands, at this position.
    Refused { position: usize, entry: Entry },
    NoMemory,
}

// A player that plays entries up to the first fault, which it keeps. Of the other entries it keeps none.
#[derive(Drop)]
pub struct Verifier<P: Application> {
    player: Player<P>,
    stop: Option<Stop>,
}

impl<P: Application> Verifier<P> {
    ghost use Rattle.history.specs.Played.{HasVerified};
    ghost use Rattle.history.specs.Verdict.{IsEnd};

    // Before the first entry.
    pub fn new(alloc: Global, opening: Config<P>) -> Verifier<P>
        ensures { HasVerified P.app P.from_text opening [] result }
    {
        Verifier {
            player: Player::new(alloc, opening),
            stop: None,
        }
    }

    // Plays the entries, which come after so many others. After a fault nothing is played.
    pub fn take(&mut self, alloc: Global, before: usize, entries: &[Entry])
        requires { before + length entries.now < 2 ^ 64 }
        ensures { (c : Configuration P.Local) (es : List Entry) → HasVerified P.app P.from_text c es self.old
            → before ≡ length es → HasVerified P.app P.from_text c (es ++ entries.now) self.new }
    {
        if self.stop.is_none() {
            if let Err(fault) = self.player.play(alloc, before, entries) {
                self.stop = Some(kept(alloc, fault));
            }
        }
    }

    // What the entries leave and come to, which are so many, or which of them is refused.
    pub fn judged(self, count: usize) -> Result<Resumed<P>, JudgeFault<P>>
        ensures { (c : Configuration P.Local) (es : List Entry) → HasVerified P.app P.from_text c es self
            → count ≡ length es → IsEnd P.app P.from_text c es result }
    {
        let Verifier { player, stop } = self;
        let (config, reports) = player.into_parts();
        match stop {
            None => Ok(Resumed {
                config,
                summary: Summary {
                    entries: count,
                    reports,
                },
            }),
            Some(Stop::Refused { position, entry }) => Err(JudgeFault::Refused(Refused {
                position,
                entry,
                config,
            })),
            Some(Stop::NoMemory) => {
                drop(config);
                Err(JudgeFault::NoMemory)
            }
        }
    }
}

// Why entries are played no further, with an entry of its own.
fn kept(alloc: Global, fault: PlayFault<'_>) -> Stop
    ensures { IsKept fault.entry result }
{
    match fault {
        PlayFault::Refused { position, entry } => match entry.copy(alloc) {
            Ok(entry) => Stop::Refused { position, entry },
            Err(_) => Stop::NoMemory,
        },
        PlayFault::NoMemory => Stop::NoMemory,
    }
}
