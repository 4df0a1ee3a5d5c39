// What tables of texts of local states ask of an application.

use app_interface::{Application, Here, LocalFault, Reads, Seen};
use std::alloc::Global;
use std::process::Abort;
use std::test::Fail;
use topology::Topology;

/// A node, a case that it takes and the neighbour that it names with that; the text of its state, and a neighbour that
/// it sees with the text of that one's; and the text of the state that the case leaves, no text where it isn't enabled.
pub(crate) type Step<'t> = (
    u32,
    u8,
    Option<u32>,
    &'t str,
    Option<(u32, &'t str)>,
    &'t str,
);

fn text_of<P: Application>(alloc: Global, local: &P::Local) -> Vec<u8> {
    let mut out = Vec::new(alloc);
    let _ = P::show(local, &mut out);
    out
}

/// The nodes of the line 1, 2, 3 start in the states with these texts.
pub(crate) fn starts<P: Application>(
    rt: &impl Abort,
    alloc: Global,
    texts: [&str; 3],
) -> Result<(), Fail> {
    let line = Topology::build(alloc, &[1, 2, 3], &[(1, 2), (2, 3)])?;
    starts_on::<P>(rt, alloc, &line, &texts)
}

/// The nodes of the topology start in the states with these texts, in the order of the ids.
pub(crate) fn starts_on<P: Application>(
    rt: &impl Abort,
    alloc: Global,
    topology: &Topology,
    texts: &[&str],
) -> Result<(), Fail> {
    assert_eq!(rt; topology.len(), texts.len());
    for (index, text) in texts.iter().enumerate() {
        let local = P::on_start(alloc, topology, index)?;
        assert!(rt;
            text_of::<P>(alloc, &local).as_slice() == text.as_bytes(),
            "node {index}"
        );
    }
    Ok(())
}

/// Each step leaves what it has to leave.
pub(crate) fn takes_steps<P: Application>(
    rt: &impl Abort,
    alloc: Global,
    steps: &[Step<'_>],
) -> Result<(), Fail> {
    for step in steps {
        let (id, case, _, _, _, left) = *step;
        assert!(rt;
            acted::<P>(alloc, *step)?.as_slice() == left.as_bytes(),
            "node {id}, case {case}"
        );
    }
    Ok(())
}

fn acted<P: Application>(alloc: Global, step: Step<'_>) -> Result<Vec<u8>, Fail> {
    let (_, _, _, own, seen, _) = step;
    let own = P::read_local(alloc, own.as_bytes())?;
    match seen {
        None => after::<P>(alloc, step, &own, &[]),
        Some((id, theirs)) => {
            let theirs = P::read_local(alloc, theirs.as_bytes())?;
            after::<P>(alloc, step, &own, &[Seen { id, local: &theirs }])
        }
    }
}

fn after<P: Application>(
    alloc: Global,
    step: Step<'_>,
    own: &P::Local,
    seen: &[Seen<'_, P::Local>],
) -> Result<Vec<u8>, Fail> {
    let (id, case, with, _, _, _) = step;
    let here = Here { id, k: 3 };
    if !P::can(here, case, with, own, seen) {
        return Ok(Vec::new(alloc));
    }
    let after = P::on_clock(alloc, here, case, with, own, seen)?;
    Ok(text_of::<P>(alloc, &after))
}

/// A copy of the state with this text is the same as those of which the table says so, and as no other of it.
pub(crate) fn tells_apart<P: Application>(
    rt: &impl Abort,
    alloc: Global,
    text: &str,
    others: &[(&str, bool)],
) -> Result<(), Fail> {
    let local = P::read_local(alloc, text.as_bytes())?;
    let copy = P::copy(alloc, &local)?;
    for (other, same) in others {
        let theirs = P::read_local(alloc, other.as_bytes())?;
        assert!(rt; P::same(&copy, &theirs) == *same, "{other}");
    }
    Ok(())
}

/// What is read of each text has that text.
pub(crate) fn reads_back<P: Application>(
    rt: &impl Abort,
    alloc: Global,
    texts: &[&str],
) -> Result<(), Fail> {
    for text in texts {
        let local = P::read_local(alloc, text.as_bytes())?;
        assert!(rt;
            text_of::<P>(alloc, &local).as_slice() == text.as_bytes(),
            "{text}"
        );
    }
    Ok(())
}

/// No text is one of a state.
pub(crate) fn refuses<P: Application>(rt: &impl Abort, alloc: Global, texts: &[&str]) {
    for text in texts {
        assert!(rt; is_bad::<P>(alloc, text.as_bytes()), "{text}");
    }
}

pub(crate) fn is_bad<P: Application>(alloc: Global, text: &[u8]) -> bool {
    matches!(P::read_local(alloc, text), Err(LocalFault::BadLocal))
}

/// There are so many cases, and those of the table have these names and read this.
pub(crate) fn names_cases<P: Application>(
    rt: &impl Abort,
    count: u8,
    cases: &[(u8, Option<&'static str>, Option<Reads>)],
) {
    assert!(rt; P::cases() == count);
    for (case, name, reads) in cases {
        assert!(rt; P::case_name(*case) == *name, "case {case}");
        assert!(rt; P::reads(*case) == *reads, "case {case}");
    }
}

/// What is told at node `id` of its link to `other`, from the texts of the states of the two.
pub(crate) fn fault_at<P: Application>(
    alloc: Global,
    id: u32,
    own: &[u8],
    other: u32,
    theirs: &[u8],
) -> Result<Option<u8>, Fail> {
    let own = P::read_local(alloc, own)?;
    let theirs = P::read_local(alloc, theirs)?;
    Ok(P::link_ok(Here { id, k: 3 }, &own, other, &theirs))
}
