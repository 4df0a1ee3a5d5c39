// Small systems.

ghost use Rattle.std.specs.Prelude.{◌≡◌, ◌<◌, ◌++◌, ◌∷◌, [], OnOk, map};
ghost use Rattle.exploration_tests.specs.Systems.{only_if};

use exploration::{Lists, System};
use std::alloc::{AllocError, Global};

/// A number, to which a step adds one or two, modulo the size.
#[derive(Drop)]
pub struct Counter {
    /// The size, above 0.
    pub size: u32,
    ghost some: { 0 < size },
}

/// A point of a grid, from which a step leads right or up.
#[derive(Drop)]
pub struct Grid {
    /// The greatest coordinate.
    pub side: u32,
}

/// A vertex of a directed graph, from which a step leads to a neighbour.
#[derive(Drop)]
pub struct Graph {
    /// For each vertex its neighbours; a vertex without a row has none.
    pub rows: Vec<Vec<u32>>,
}

impl System for Counter {
    ghost use Rattle.exploration_tests.specs.Systems.{HasWords, counted, counted_keeps};

    ghost is_state = { λ _ s. HasWords 1 s };

    ghost is_followed = { λ _ s. Unit {0} };

    ghost next = { λ m s. counted m.size s };

    ghost keeps = { λ m s _ _. counted_keeps m.size s };

    fn successors(
        &mut self,
        _alloc: Global,
        state: &[u32],
        found: &mut Lists<u32>,
    ) -> Result<(), AllocError> {
        let size = self.size as u64;
        let at = state[0] as u64;
        let one = ((at + 1) % size) as u32;
        let two = ((at + 2) % size) as u32;
        found.push(&[one])?;
        found.push(&[two])?;
        Ok(())
    }
}

// Adds the state where the test holds.
fn push_if(test: bool, state: &[u32], found: &mut Lists<u32>) -> Result<(), AllocError>
    ensures { OnOk result (found.new ≡ found.old ++ only_if test state.now) }
{
    if test {
        return found.push(state);
    }
    Ok(())
}

impl System for Grid {
    ghost use Rattle.exploration_tests.specs.Systems.{HasWords, grid_steps, grid_keeps};

    ghost is_state = { λ _ s. HasWords 2 s };

    ghost is_followed = { λ _ s. Unit {0} };

    ghost next = { λ m s. grid_steps m.side s };

    ghost keeps = { λ m s _ _. grid_keeps m.side s };

    fn successors(
        &mut self,
        _alloc: Global,
        state: &[u32],
        found: &mut Lists<u32>,
    ) -> Result<(), AllocError> {
        let right = state[0];
        let up = state[1];
        if right < self.side {
            found.push(&[right + 1, up])?;
        }
        if up < self.side {
            found.push(&[right, up + 1])?;
        }
        Ok(())
    }
}

// Adds each vertex as a state.
fn push_all(vertices: &[u32], found: &mut Lists<u32>) -> Result<(), AllocError>
    ensures { OnOk result (found.new ≡ found.old ++ map (λ v. v ∷ []) vertices.now) }
{
    for vertex in vertices {
        found.push(&[*vertex])?;
    }
    Ok(())
}

impl System for Graph {
    ghost use Rattle.exploration_tests.specs.Systems.{HasWords, graph_steps, neighbours, single_keeps};
    ghost use Rattle.std.specs.Prelude.{slice_get, slice_index};

    ghost is_state = { λ _ s. HasWords 1 s };

    ghost is_followed = { λ _ s. Unit {0} };

    ghost next = { λ m s. graph_steps m.rows.items s };

    ghost keeps = { λ m s _ _. single_keeps (neighbours (slice_get m.rows.items (slice_index s 0))) };

    fn successors(
        &mut self,
        _alloc: Global,
        state: &[u32],
        found: &mut Lists<u32>,
    ) -> Result<(), AllocError> {
        match self.rows.get(state[0] as usize) {
            Some(row) => push_all(row, found),
            None => Ok(()),
        }
    }
}
