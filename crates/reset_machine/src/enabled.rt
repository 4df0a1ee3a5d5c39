// The enabled rows and cases of a node, and whether it has something to do.

ghost use Rattle.std.specs.Prelude.{◌≡◌, if◌then◌else◌, map, Some, IfOk, is_ok};
ghost use Rattle.std.specs.List.{list_any};
ghost use Rattle.std.specs.List.Sorted.{IsStrictlyIncreasing};
ghost use Rattle.action_tables.specs.Numbers.{is_among};
ghost use Rattle.action_tables.specs.Table.{enabled_of};
ghost use Rattle.topology.specs.Graph.{node_bound};
ghost use Rattle.reset_model.specs.Configuration.{local_of, wave_of};
ghost use Rattle.reset_machine.specs.Enabled.{enabled_acts, enabled_rows, enabled_trees, enabled_waves};
ghost use Rattle.reset_machine.specs.Enabled.{has_work, has_work_at, is_taken};
ghost use Rattle.reset_machine.specs.Place.{case_outcome_at, near_ids};
ghost use Rattle.tree_layer.specs.TreeTable.{IsView, tree_table};
ghost use Rattle.wave_layer.specs.WaveTable.{wave_table};

use crate::action::is_taken;
use crate::place::Place;
use crate::view::{father_seen, read_children, read_near_trees};
use action_tables::{CaseSet, MOST_CASES};
use app_interface::{Application, Reads};
use reset_model::Arguments;
use std::alloc::{AllocError, Global};
use tree_layer::{TreeRegs, TreeView, tree_enabled};
use wave_layer::{FatherSeen, Modulus, WaveRegs, WaveView, wave_enabled};

// The request, the one row that is enabled wherever nothing is to be done.
const REQUEST: u8 = 1;

/// The enabled rows of a node, by table.
#[derive(Clone, Copy, Debug, PartialEq, Eq)]
pub struct Enabled {
    /// Rows of the tree table.
    pub tree: CaseSet,
    /// Rows of the wave table.
    pub wave: CaseSet,
    /// Cases of the application.
    pub act: CaseSet,
}

impl Enabled {
    // Whether a case is enabled, or a row other than the request.
    fn has_any(self) -> bool
        ensures { result ≡ has_work self.tree self.wave self.act }
    {
        self.wave.lemma_is_listed();
        self.tree.count() > 0
            || self.wave.count() > count_of(self.wave, REQUEST)
            || self.act.count() > 0
    }
}

// How often the row is in the set: once or never.
fn count_of(set: CaseSet, row: u8) -> u32
    ensures { result ≡ (if is_among row set then 1 else 0) }
{
    if set.has(row) { 1 } else { 0 }
}

/// The enabled rows and cases of the node.
pub fn enabled_at<P: Application>(
    alloc: Global,
    place: &Place<'_, P>,
) -> Result<Enabled, AllocError>
    ensures { IfOk result (λ rows. rows ≡ enabled_rows P.app place.now.config place.now.id) }
{
    let tree = enabled_trees(place, &mut Vec::new(alloc))?;
    let wave = enabled_waves(place, &mut Vec::new(alloc))?;
    let act = enabled_acts(alloc, place)?;
    Ok(Enabled { tree, wave, act })
}

// The enabled rows of the tree table. The node's neighbours are read into the vector.
fn enabled_trees<P: Application>(
    place: &Place<'_, P>,
    near: &mut Vec<(u32, TreeRegs)>,
) -> Result<CaseSet, AllocError>
    ensures { IfOk result (λ rows. rows ≡ enabled_trees place.now.config place.now.id) }
{
    place.lemma_is_place();
    read_near_trees(place, near)?;
    Ok(tree_rows(place.id(), place.bound(), place.tree(), near))
}

// The enabled rows of the tree table, where a node sees this. As wave_rows, it is not generic, so that
// the table is compiled once and not once for each application.
fn tree_rows(id: u32, bound: u32, own: TreeRegs, near: &[(u32, TreeRegs)]) -> CaseSet
    requires { IsView id bound near.now }
    ensures { result
        ≡ enabled_of (tree_table (record { id = id; bound = bound; own = own; near = near.now }) near.now) }
{
    match TreeView::new(id, bound, own, near) {
        Some(view) => tree_enabled(&view),
        None => unreachable!(),
    }
}

// The enabled rows of the wave table. The node's children are read into the vector.
fn enabled_waves<P: Application>(
    place: &Place<'_, P>,
    children: &mut Vec<(u32, WaveRegs)>,
) -> Result<CaseSet, AllocError>
    ensures { IfOk result (λ rows. rows ≡ enabled_waves place.now.config place.now.id) }
{
    place.lemma_is_place();
    read_children(place, children)?;
    Ok(wave_rows(place.wave(), father_seen(place), children, place.modulus()))
}

// The enabled rows of the wave table, where a node sees this.
fn wave_rows(
    own: WaveRegs,
    father: FatherSeen,
    children: &[(u32, WaveRegs)],
    modulus: Modulus,
) -> CaseSet
    requires { IsStrictlyIncreasing (map (λ c. c.0) children.now) }
    ensures { result
        ≡ enabled_of (wave_table (record { own = own; father = father; children = children.now; modulus = modulus })
        children.now) }
{
    match WaveView::new(own, father, children, modulus) {
        Some(view) => wave_enabled(&view),
        None => unreachable!(),
    }
}

// The cases of the application that are enabled with some choice of a neighbour.
fn enabled_acts<P: Application>(alloc: Global, place: &Place<'_, P>) -> Result<CaseSet, AllocError>
    ensures { IfOk result (λ set. set ≡ enabled_acts P.app place.now.config place.now.id) }
{
    let mut acts = CaseSet::empty();
    for case in 1..=MOST_CASES {
        if is_enabled(alloc, place, case)? {
            acts = acts.with(case);
        }
    }
    Ok(acts)
}

// Whether the case is enabled with some choice of a neighbour.
fn is_enabled<P: Application>(
    alloc: Global,
    place: &Place<'_, P>,
    case: u8,
) -> Result<bool, AllocError>
    ensures { let c = place.now.config in IfOk result (λ taken. taken
        ≡ is_taken P.app c.graph (node_bound c.graph) (wave_of c) (local_of P.app c) place.now.id case) }
{
    match P::reads(case) {
        None => Ok(false),
        Some(Reads::Alone | Reads::All) => is_taken(alloc, place, Arguments { case, with: None }),
        Some(Reads::Toward | Reads::One) => is_taken_toward(alloc, place, case),
    }
}

// Whether the case is enabled toward some neighbour.
fn is_taken_toward<P: Application>(
    alloc: Global,
    place: &Place<'_, P>,
    case: u8,
) -> Result<bool, AllocError>
    ensures { IfOk result (λ taken. taken
        ≡ list_any (λ with. is_ok (case_outcome_at P.app place.now case with)) (map Some (near_ids place.now))) }
{
    for near in place.neighbours() {
        let with = Some(place.id_at(*near));
        if is_taken(alloc, place, Arguments { case, with })? {
            return Ok(true);
        }
    }
    Ok(false)
}

/// Whether a case is enabled at the node, or a row other than the request. Its neighbours and children
/// are read into the vectors: the room of one node serves the next.
pub fn has_work<P: Application>(
    alloc: Global,
    place: &Place<'_, P>,
    near: &mut Vec<(u32, TreeRegs)>,
    children: &mut Vec<(u32, WaveRegs)>,
) -> Result<bool, AllocError>
    ensures { IfOk result (λ ready. ready ≡ has_work_at P.app place.now.config place.now.id) }
{
    let tree = enabled_trees(place, near)?;
    let wave = enabled_waves(place, children)?;
    let act = enabled_acts(alloc, place)?;
    let enabled = Enabled { tree, wave, act };
    Ok(enabled.has_any())
}
