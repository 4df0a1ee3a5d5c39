// What another topology of the same identifiers makes of registers and local states: those of the nodes that come
// up are new, and the others stay.

ghost use Rattle.std.specs.Prelude.{◌≡◌, ◌<◌, IfOk, length, slice_index};
ghost use Rattle.tree_layer.specs.TreeRows.{claimed};
ghost use Rattle.wave_layer.specs.declared.regs.Phase.TheVariants.{Normal};
ghost use Rattle.reset_model.specs.Topologies.{comes_up, renewed};

use app_interface::Application;
use std::alloc::{AllocError, Global};
use topology::Topology;
use tree_layer::TreeRegs;
use wave_layer::{Phase, WaveRegs};

// Whether the identifier at this index comes up: it is up in the new topology, and was down in the old one.
fn comes_up(old: &Topology, new: &Topology, index: usize) -> bool
    requires same { new.now.ids ≡ old.now.ids }
    requires short { index < length new.now.ids }
    ensures { result ≡ comes_up old.now new.now (slice_index new.now.ids index) }
{
    new.is_up(index) && !old.is_up(index)
}

/// Makes each node that comes up its own root.
pub fn renew_trees(old: &Topology, new: &Topology, trees: &mut [TreeRegs])
    requires same { new.now.ids ≡ old.now.ids }
    requires count { length trees.old ≡ length new.now.ids }
    ensures { trees.new ≡ renewed (comes_up old.now new.now) claimed new.now.ids trees.old }
{
    for (index, id) in new.ids().iter().enumerate() {
        if comes_up(old, new, index) {
            trees[index] = TreeRegs {
                root: *id,
                father: *id,
                dist: 0,
            };
        }
    }
}

/// Makes each node that comes up normal in session 0.
pub fn renew_waves(old: &Topology, new: &Topology, waves: &mut [WaveRegs])
    requires same { new.now.ids ≡ old.now.ids }
    requires count { length waves.old ≡ length new.now.ids }
    ensures { waves.new ≡ renewed (comes_up old.now new.now)
        (λ _. record { phase = Normal; session = 0 }) new.now.ids waves.old }
{
    for index in 0..waves.len() {
        if comes_up(old, new, index) {
            waves[index] = WaveRegs {
                phase: Phase::Normal,
                session: 0,
            };
        }
    }
}

/// The local states after the change: of each node that comes up its start state, and a copy of any other.
pub fn renewed_locals<P: Application>(
    alloc: Global,
    old: &Topology,
    new: &Topology,
    locals: &[P::Local],
) -> Result<Vec<P::Local>, AllocError>
    requires same { new.now.ids ≡ old.now.ids }
    requires count { length locals.now ≡ length new.now.ids }
    ensures { IfOk result (λ after. after.items
        ≡ renewed (comes_up old.now new.now) (P.app.start new.now) new.now.ids locals.now) }
{
    let mut after = copy_all::<P>(alloc, locals)?;
    for index in 0..locals.len() {
        if comes_up(old, new, index) {
            after[index] = P::on_start(alloc, new, index)?;
        }
    }
    Ok(after)
}

/// A copy of each local state.
pub fn copy_all<P: Application>(
    alloc: Global,
    locals: &[P::Local],
) -> Result<Vec<P::Local>, AllocError>
    ensures { IfOk result (λ copies. copies.items ≡ locals.now) }
{
    let mut copies = Vec::new(alloc);
    for local in locals {
        copies.push(P::copy(alloc, local)?)?;
    }
    Ok(copies)
}
