// What a case of the application reads, and what it leaves.

ghost use Rattle.std.specs.Prelude.{◌≡◌, ◌≢◌, MatchResult, None, Some};
ghost use Rattle.app_interface.specs.Views.{seen_values};
ghost use Rattle.reset_model.specs.Actions.{misfit, reads_near};

use crate::step::StepRefusal;
use app_interface::{Application, ClockRefusal, Here, Reads, Seen};
use std::alloc::Global;

/// A case of the application, and the neighbour that is named with it.
#[derive(Clone, Copy)]
pub struct Arguments {
    pub case: u8,
    pub with: Option<u32>,
}

/// Takes the case, with what it reads.
pub fn on_clock<P: Application>(
    alloc: Global,
    here: Here,
    arguments: Arguments,
    own: &P::Local,
    seen: &[Seen<'_, P::Local>],
) -> Result<P::Local, StepRefusal>
    ensures exact { MatchResult result
        (λ local. P.app.next here.id here.k arguments.case arguments.with own.now (seen_values seen.now) ≡ Some local)
        (λ f. f ≢ StepRefusal.NoMemory → (f ≡ StepRefusal.NotEnabled)
        × (P.app.next here.id here.k arguments.case arguments.with own.now (seen_values seen.now) ≡ None)) }
{
    match P::on_clock(alloc, here, arguments.case, arguments.with, own, seen) {
        Ok(local) => Ok(local),
        Err(ClockRefusal::NotEnabled) => Err(StepRefusal::NotEnabled),
        Err(ClockRefusal::NoMemory) => Err(StepRefusal::NoMemory),
    }
}

/// Why the choice doesn't fit what the case reads, if it doesn't.
pub fn misfit(reads: Option<Reads>, with: Option<u32>) -> Option<StepRefusal>
    ensures { result ≡ misfit reads with }
{
    match reads {
        None => Some(StepRefusal::NoSuchCase),
        Some(Reads::Toward | Reads::One) => match with {
            None => Some(StepRefusal::WantsNeighbour),
            Some(_) => None,
        },
        Some(Reads::Alone | Reads::All) => match with {
            None => None,
            Some(_) => Some(StepRefusal::TakesNoNeighbour),
        },
    }
}

/// Whether the case reads this neighbour.
pub fn reads_near(reads: Option<Reads>, with: Option<u32>, near: u32) -> bool
    ensures { result ≡ reads_near reads with near }
{
    match reads {
        Some(Reads::All) => true,
        Some(Reads::One) => with == Some(near),
        Some(Reads::Alone | Reads::Toward) | None => false,
    }
}
