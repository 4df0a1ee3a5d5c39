// The fields of a line that say what a node has.

ghost use Rattle.std.specs.Prelude.{◌≡◌, ◌++◌, IfNone, IfSome, OnOk, codes};
ghost use Rattle.std.specs.List.{flat_map};
ghost use Rattle.topology.specs.Graph.{IsNode};
ghost use Rattle.reset_model.specs.Configuration.{local_of, tree_of, wave_of};
ghost use Rattle.history_page.specs.Fields.{field_text, fields_text, phase_letter, tree_text, wave_text};

use crate::line::add_parts;
use action_tables::{Part, WriteFault};
use app_interface::Application;
use reset_machine::Config;
use std::alloc::AllocError;
use tree_layer::TreeRegs;
use wave_layer::{Phase, WaveRegs};

// What a field says of a node.
#[derive(Clone, Copy)]
pub enum Field {
    Tree,
    Wave,
    Local,
}

// Adds fields of a node, as it is in this configuration. What is down has none.
pub fn add_fields<P: Application>(
    line: &mut Vec<u8>,
    config: &Config<P>,
    id: u32,
    fields: &[Field],
) -> Result<(), AllocError>
    ensures { OnOk result
        (line.new.items ≡ line.old.items ++ fields_text P.app P.text config.now id fields.now) }
{
    match node_at(config, id) {
        Some((tree, wave, local)) => add_each::<P>(line, tree, wave, local, fields),
        None => Ok(()),
    }
}

// What stands at a node.
fn node_at<P: Application>(config: &Config<P>, id: u32) -> Option<(TreeRegs, WaveRegs, &P::Local)>
    ensures found { IfSome result
        (λ at. IsNode config.now.graph id × (at.0 ≡ tree_of config.now id) × (at.1 ≡ wave_of config.now id)
        × (at.2.now ≡ local_of P.app config.now id)) }
    ensures none { IfNone result (IsNode config.now.graph id → ⊥) }
{
    let tree = config.tree_at(id)?;
    let wave = config.wave_at(id)?;
    let local = config.local_at(id)?;
    Some((tree, wave, local))
}

// Adds fields of a node with these registers and this local state.
fn add_each<P: Application>(
    line: &mut Vec<u8>,
    tree: TreeRegs,
    wave: WaveRegs,
    local: &P::Local,
    fields: &[Field],
) -> Result<(), AllocError>
    ensures { OnOk result
        (line.new.items ≡ line.old.items ++ flat_map (field_text P.text tree wave local.now) fields.now) }
{
    for field in fields {
        add_field::<P>(line, tree, wave, local, *field)?;
    }
    Ok(())
}

// Adds a field of a node with these registers and this local state.
fn add_field<P: Application>(
    line: &mut Vec<u8>,
    tree: TreeRegs,
    wave: WaveRegs,
    local: &P::Local,
    field: Field,
) -> Result<(), AllocError>
    ensures { OnOk result (line.new.items ≡ line.old.items ++ field_text P.text tree wave local.now field) }
{
    match field {
        Field::Tree => add_tree(line, tree),
        Field::Wave => add_wave(line, wave),
        Field::Local => add_local::<P>(line, local),
    }
}

// Adds root, father and distance.
#[tactic(auto, unfolding(crate::specs::Fields::tree_text))]
fn add_tree(line: &mut Vec<u8>, regs: TreeRegs) -> Result<(), AllocError>
    ensures { OnOk result (line.new.items ≡ line.old.items ++ tree_text regs) }
{
    add_parts(
        line,
        &[
            Part::Text(b";t"),
            Part::Number(regs.root as u64),
            Part::Text(b" "),
            Part::Number(regs.father as u64),
            Part::Text(b" "),
            Part::Number(regs.dist as u64),
        ],
    )
}

// Adds phase and session.
#[tactic(auto, unfolding(crate::specs::Fields::wave_text))]
fn add_wave(line: &mut Vec<u8>, regs: WaveRegs) -> Result<(), AllocError>
    ensures { OnOk result (line.new.items ≡ line.old.items ++ wave_text regs) }
{
    let letter = phase_letter(regs.phase).as_bytes();
    add_parts(
        line,
        &[
            Part::Text(b";"),
            Part::Text(letter),
            Part::Number(regs.session as u64),
        ],
    )
}

// The letter of a phase.
fn phase_letter(phase: Phase) -> &'static str
    ensures { result.now ≡ phase_letter phase }
{
    match phase {
        Phase::Normal => "n",
        Phase::Initiate => "i",
        Phase::Reset => "r",
    }
}

// Adds a local state.
fn add_local<P: Application>(line: &mut Vec<u8>, local: &P::Local) -> Result<(), AllocError>
    ensures { OnOk result (line.new.items ≡ line.old.items ++ (codes ";=" ++ P.text local.now)) }
{
    add_parts(line, &[Part::Text(b";=")])?;
    match P::show(local, line) {
        Ok(()) => Ok(()),
        Err(WriteFault) => Err(AllocError),
    }
}
