// Topology texts of standard shapes, as the words of the command line ask for them.

ghost use Rattle.std.specs.Prelude.{◌≡◌, ◌≤◌, IfErr, option_map};
ghost use Rattle.network_shapes.specs.Shapes.{shape_description};
ghost use Rattle.topology.specs.TopologyTable.{description_text};
ghost use Rattle.script_replay.specs.Output.{bad_topology_text, Leaves};
ghost use Rattle.reset_service.specs.Shaped.{app_or_idle, shape_named, shaped};
ghost use Rattle.script_replay.specs.Stops.{IsOutputStop};

use action_tables::put_bytes;
use network_shapes::{Shape, shape_text};
use script_replay::{RunStop, Status, put_topology_fault, refuse_input};
use std::alloc::Global;
use std::io::Write;
use topology::{AppName, ReadFault, app_named};

/// Writes the topology text of a shape with so many nodes, from 1 to 1,024, or that one of the two names isn't known.
/// Where no application is named, it is the one that idles. The seed matters to random shapes alone.
pub fn write_shape<W: Write>(
    alloc: Global,
    shape: &str,
    nodes: u32,
    seed: u32,
    app: Option<&str>,
    out: &mut W,
) -> Result<Status, RunStop>
    requires some { 1 ≤ nodes }
    requires few { nodes ≤ 1024 }
    ensures leaves { Leaves
        (λ output. output
        ≡ shaped (shape_named shape.now) (app_or_idle (option_map (λ name. name.now) app.entry)) nodes seed)
        (W.contents out.old) (W.contents out.new) result }
    ensures stop { IfErr result IsOutputStop }
{
    match shape_named(shape) {
        Some(shape) => match app_or_idle(app) {
            Ok(app) => write_known(alloc, shape, nodes, seed, app, out),
            Err(fault) => refuse_app(fault, out),
        },
        None => refuse_input(out, b"bad topology UnknownShape\n"),
    }
}

// Writes the topology text of a shape with this application.
fn write_known<W: Write>(
    alloc: Global,
    shape: Shape,
    nodes: u32,
    seed: u32,
    app: AppName,
    out: &mut W,
) -> Result<Status, RunStop>
    requires some { 1 ≤ nodes }
    requires few { nodes ≤ 1024 }
    ensures leaves { Leaves
        (λ output. output ≡ (description_text (shape_description shape nodes seed app), Status.Good))
        (W.contents out.old) (W.contents out.new) result }
    ensures stop { IfErr result IsOutputStop }
{
    let text = shape_text(alloc, shape, nodes, seed, app)?;
    put_bytes(out, text.as_bytes())?;
    Ok(Status::Good)
}

// Answers a name of no application.
fn refuse_app<W: Write>(fault: ReadFault, out: &mut W) -> Result<Status, RunStop>
    ensures leaves { Leaves (λ output. output ≡ (bad_topology_text fault, Status.BadInput)) (W.contents out.old)
        (W.contents out.new) result }
    ensures stop { IfErr result IsOutputStop }
{
    put_topology_fault(out, fault)?;
    Ok(Status::BadInput)
}

#[tactic(auto, unfolding(crate::specs::Shaped::shape_named))]
fn shape_named(name: &str) -> Option<Shape>
    ensures { result ≡ shape_named name.now }
{
    match name {
        "ring" => Some(Shape::Ring),
        "path" => Some(Shape::Path),
        "star" => Some(Shape::Star),
        "grid" => Some(Shape::Grid),
        "tree" => Some(Shape::Tree),
        "random" => Some(Shape::Random),
        _ => None,
    }
}

fn app_or_idle(name: Option<&str>) -> Result<AppName, ReadFault>
    ensures { result ≡ app_or_idle (option_map (λ name. name.now) name.entry) }
{
    match name {
        None => Ok(AppName::Idle),
        Some(name) => app_named(name),
    }
}
