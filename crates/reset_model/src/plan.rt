// What the rows of an event do, by what a node sees.

ghost use Rattle.std.specs.Prelude.{◌≡◌, Err, MatchResult, Ok};
ghost use Rattle.reset_model.specs.LocalSteps.{first_fired, fired_row, fired_wave};
ghost use Rattle.reset_model.specs.declared.plan.Fired.TheVariants.{Wave};

use crate::step::StepRefusal;
use tree_layer::{TreeRefusal, TreeRegs, TreeView, tree_fire};
use wave_layer::{WaveMove, WaveRefusal, WaveRegs, WaveView, wave_fire};

/// What an event does at its node.
#[derive(Drop)]
pub enum Effect<L> {
    /// The tree registers become these.
    Tree(TreeRegs),
    /// The wave registers become these and, where the node restarts, the local state becomes that.
    Wave(WaveRegs, Option<L>),
    /// The local state becomes this.
    Local(L),
}

/// What a row of one of the two tables leaves.
#[derive(Clone, Copy)]
pub enum Fired {
    /// The tree registers become these.
    Tree(TreeRegs),
    /// A row of the wave table was fired.
    Wave(WaveMove),
}

/// What a node sees of the layer that an event belongs to.
#[derive(Drop)]
pub enum Seen<'a> {
    /// What it sees of the tree.
    Tree(TreeView<'a>),
    /// What it sees of the wave.
    Wave(WaveView<'a>),
}

/// Fires the first of the rows whose guard holds, or names the first refusal but `NotEnabled`. Where no
/// guard holds it is `NotEnabled`.
#[inline(always)]
pub fn first_fired(seen: &Seen<'_>, named: Option<u32>, cases: &[u8]) -> Result<Fired, StepRefusal>
    ensures { result ≡ first_fired seen.now named cases.now }
{
    for case in cases {
        match fired_row(seen, named, *case) {
            Err(StepRefusal::NotEnabled) => {}
            fired => return fired,
        }
    }
    Err(StepRefusal::NotEnabled)
}

// Fires a row of the layer's table.
#[inline(always)]
fn fired_row(seen: &Seen<'_>, named: Option<u32>, case: u8) -> Result<Fired, StepRefusal>
    ensures { result ≡ fired_row seen.now named case }
{
    match seen {
        Seen::Tree(view) => match tree_fire(view, case, named) {
            Ok(regs) => Ok(Fired::Tree(regs)),
            Err(TreeRefusal::StrangeNeighbour) => Err(StepRefusal::StrangeNeighbour),
            Err(TreeRefusal::NoSuchCase | TreeRefusal::NotEnabled) => Err(StepRefusal::NotEnabled),
        },
        Seen::Wave(view) => match fired_wave(wave_fire(view, case, named)) {
            Ok(fired) => Ok(Fired::Wave(fired)),
            Err(refusal) => Err(refusal),
        },
    }
}

/// What a row of the wave table did, or why an event of the wave isn't a step. A neighbour that is no
/// child can't have asked.
#[inline(always)]
pub fn fired_wave(fired: Result<WaveMove, WaveRefusal>) -> Result<WaveMove, StepRefusal>
    ensures { MatchResult result (λ move. fired_wave fired ≡ Ok (Wave move)) (λ refusal. fired_wave fired ≡ Err refusal) }
{
    match fired {
        Ok(fired) => Ok(fired),
        Err(WaveRefusal::NoSuchCase | WaveRefusal::NotChild | WaveRefusal::NotEnabled) => {
            Err(StepRefusal::NotEnabled)
        }
    }
}
