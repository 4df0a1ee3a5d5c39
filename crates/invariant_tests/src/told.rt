// What tables of texts of local states ask of an invariant.
ghost use Rattle.std.specs.Prelude.{◌≡◌, length};
ghost use Rattle.topology.specs.Graph.{IsNode};

use app_invariants::{Invariant, find_violation};
use std::alloc::{AllocError, Global};
use std::process::Abort;
use std::test::Fail;
use topology::Topology;

/// The texts of the states of all identifiers, and what is told at each node, both in the order of the identifiers.
pub(crate) type Case<'t> = (&'t [&'t str], &'t [&'t str]);

/// Of the network with these nodes and links it is told what the table says.
pub(crate) fn tells<P: Invariant>(
    rt: &impl Abort,
    alloc: Global,
    nodes: &[u32],
    links: &[(u32, u32)],
    cases: &[Case<'_>],
) -> Result<(), Fail> {
    let topology = Topology::build(alloc, nodes, links)?;
    tells_on::<P>(rt, alloc, &topology, cases)
}

/// Of this network it is told what the table says.
pub(crate) fn tells_on<P: Invariant>(
    rt: &impl Abort,
    alloc: Global,
    topology: &Topology,
    cases: &[Case<'_>],
) -> Result<(), Fail> {
    for (texts, told) in cases {
        let mut states = Vec::new(alloc);
        for text in *texts {
            states.push(P::read_local(alloc, text.as_bytes())?)?;
        }
        tells_of::<P>(rt, alloc, topology, states.as_slice(), told)?;
    }
    Ok(())
}

fn tells_of<P: Invariant>(
    rt: &impl Abort,
    alloc: Global,
    topology: &Topology,
    states: &[P::Local],
    told: &[&str],
) -> Result<(), Fail> {
    let nodes = topology.nodes();
    assert!(rt; states.len() == topology.len());
    assert!(rt; told.len() == nodes.len());
    for index in 0..nodes.len() {
        let text = text_at::<P>(alloc, topology, nodes[index], states)?;
        assert!(rt;
            text.as_slice() == told[index].as_bytes(),
            "node {}",
            nodes[index]
        );
    }
    Ok(())
}

// `holds`, or the text of what is wrong.
fn text_at<P: Invariant>(
    alloc: Global,
    topology: &Topology,
    at: u32,
    states: &[P::Local],
) -> Result<Vec<u8>, Fail>
    requires node { IsNode topology.now at }
    requires states { length states.now ≡ length topology.now.ids }
{
    let mut out = Vec::new(alloc);
    match find_violation::<P>(alloc, topology, at, states)? {
        None => out.extend_from_slice(b"holds")?,
        // Writing to memory fails only if an allocation fails.
        Some(violation) => violation.show(&mut out).or(Err(AllocError))?,
    }
    Ok(out)
}
