// Drawn runs.

ghost use Rattle.std.specs.Prelude.{◌≡◌, ℕ, ◌<◌, OnErr, OnOk};
ghost use Rattle.scheduler.specs.Driven.{driven};

use crate::step::drawn_step;
use app_interface::Application;
use history::Book;
use rand_core::SeedableRng;
use rand_pcg::Lcg64Xsh32;
use std::alloc::{AllocError, Global};

/// Takes so many steps, which the generator that the number `seed` seeds draws: in `faults` of a thousand cases (from
/// 1,000 on in all) a fault, and else an event that is enabled. What is refused changes nothing. Where memory is
/// wanting the book is as the first steps have left it.
pub fn drive<P: Application>(
    alloc: Global,
    book: &mut Book<P>,
    steps: u32,
    seed: u32,
    faults: u32,
) -> Result<(), AllocError>
    ensures ok { OnOk result (book.new ≡ driven P.app P.from_text steps seed faults book.old) }
    ensures err { OnErr result
        ((n : ℕ) × (n < steps) × (book.new ≡ driven P.app P.from_text n seed faults book.old)) }
    ensures opening { book.new.opening ≡ book.old.opening }
    ensures limit { book.new.limit ≡ book.old.limit }
{
    let mut random = Lcg64Xsh32::seed_from_u64(u64::from(seed));
    for _ in 0..steps {
        drawn_step(alloc, book, faults, &mut random)?;
    }
    Ok(())
}
