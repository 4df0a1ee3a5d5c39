use crate::{Counter, Graph, Grid};
use exploration::{ExploreFault, Explored, Length, explore};
use std::alloc::{AllocError, Global};
use std::test::Fail;

#[test]
fn grid_is_counted(rt: HostRuntime) -> Result<(), Fail> {
    let found = explore(rt.alloc(), &mut Grid { side: 20 }, &[0, 0], 1000)?;
    let Explored {
        states,
        steps,
        ends,
        length,
        ..
    } = found;
    assert_eq!(rt; states.len(), 441);
    assert_eq!(rt; steps, 840);
    assert_eq!(rt; ends, 1);
    match length {
        Length::Longest(n) => assert_eq!(rt; n, 40),
        Length::Endless { run: _, before: _ } => assert!(rt; false),
    }
    Ok(())
}

#[test]
fn counter_goes_round(rt: HostRuntime) -> Result<(), Fail> {
    let found = explore(rt.alloc(), &mut Counter { size: 100 }, &[0], 100)?;
    let Explored {
        states,
        steps,
        ends,
        length,
        ..
    } = found;
    assert_eq!(rt; states.len(), 100);
    assert_eq!(rt; steps, 200);
    assert_eq!(rt; ends, 0);
    match length {
        Length::Longest(_) => assert!(rt; false),
        Length::Endless { run, before } => {
            assert_eq!(rt; run.len(), 101);
            assert_eq!(rt; before, 0);
        }
    }
    Ok(())
}

#[test]
fn counter_has_too_many(rt: HostRuntime) -> Result<(), Fail> {
    match explore(rt.alloc(), &mut Counter { size: 100 }, &[0], 99) {
        Ok(_) => assert!(rt; false),
        Err(fault) => assert!(rt; matches!(fault, ExploreFault::TooMany)),
    }
    match explore(rt.alloc(), &mut Counter { size: 1 }, &[0], 0) {
        Ok(_) => assert!(rt; false),
        Err(fault) => assert!(rt; matches!(fault, ExploreFault::TooMany)),
    }
    Ok(())
}

// A diamond with one longer side, and a vertex that nothing leads to.
fn diamond(alloc: Global) -> Result<Graph, AllocError> {
    let mut rows = Vec::new(alloc);
    rows.push(vec![in alloc; 1, 2]?)?;
    rows.push(vec![in alloc; 3]?)?;
    rows.push(vec![in alloc; 4]?)?;
    rows.push(Vec::new(alloc))?;
    rows.push(vec![in alloc; 3]?)?;
    rows.push(vec![in alloc; 0]?)?;
    Ok(Graph { rows })
}

#[test]
fn diamond_is_counted(rt: HostRuntime) -> Result<(), Fail> {
    let mut graph = diamond(rt.alloc())?;
    let found = explore(rt.alloc(), &mut graph, &[0], 1000)?;
    let Explored {
        states,
        steps,
        ends,
        length,
        ..
    } = found;
    assert_eq!(rt; states.len(), 5);
    assert_eq!(rt; steps, 5);
    assert_eq!(rt; ends, 1);
    assert!(rt; matches!(length, Length::Longest(3)));
    let found = explore(rt.alloc(), &mut graph, &[3], 1000)?;
    assert_eq!(rt; found.states.len(), 1);
    assert_eq!(rt; found.ends, 1);
    assert!(rt; matches!(found.length, Length::Longest(0)));
    Ok(())
}

// A way into a loop, beside an end.
fn lasso(alloc: Global) -> Result<Graph, AllocError> {
    let mut rows = Vec::new(alloc);
    rows.push(vec![in alloc; 1, 2]?)?;
    rows.push(Vec::new(alloc))?;
    rows.push(vec![in alloc; 3]?)?;
    rows.push(vec![in alloc; 4]?)?;
    rows.push(vec![in alloc; 1, 3]?)?;
    Ok(Graph { rows })
}

#[test]
fn lasso_goes_round(rt: HostRuntime) -> Result<(), Fail> {
    let mut graph = lasso(rt.alloc())?;
    let found = explore(rt.alloc(), &mut graph, &[0], 1000)?;
    let Explored {
        states,
        steps,
        ends,
        length,
        ..
    } = found;
    assert_eq!(rt; states.len(), 5);
    assert_eq!(rt; steps, 6);
    assert_eq!(rt; ends, 1);
    match length {
        Length::Longest(_) => assert!(rt; false),
        Length::Endless { run, before } => {
            // the vertices 0, 2, 3, 4 and again 3
            assert_eq!(rt; run.as_slice(), [0, 2, 3, 4, 3].as_slice());
            assert_eq!(rt; before, 2);
        }
    }
    Ok(())
}
