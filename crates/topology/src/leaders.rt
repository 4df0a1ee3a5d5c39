ghost use Rattle.std.specs.Prelude.{◌≡◌, ◌<◌, ◌≤◌, IfOk, length, map, replicate, slice_index};
ghost use Rattle.std.specs.Vec.{vec_capacity};
ghost use Rattle.topology.specs.Rows.{AreLeadersOf, AreRows};
ghost use Rattle.topology.specs.Searching.{LeadsReached};

use crate::search::mark_row;
use std::alloc::{AllocError, Global};

/// Makes the start the leader of itself, and of each index without a leader that a walk over such
/// indexes leads to. In the order in which they are reached they have their turn. Since an index gets
/// its leader once, each row is read once over all starts.
fn lead_reached(near: &[Vec<usize>], start: usize, leaders: &mut [usize], reached: &mut Vec<usize>)
    requires rows { AreRows (length near.now) (map (λ row. row.items) near.now) }
    requires within { start < length near.now }
    requires count { length leaders.old ≡ length near.now }
    requires free { slice_index leaders.old start ≡ length near.now }
    requires capacity { length near.now ≤ vec_capacity reached.old }
    ensures leads { LeadsReached (length near.now) (map (λ row. row.items) near.now) start leaders.old
        leaders.new }
    ensures capacity { length near.now ≤ vec_capacity reached.new }
{
    reached.clear();
    leaders[start] = start;
    reached.push(start).unwrap();
    let mut place = 0;
    while place < reached.len() {
        mark_row(&near[reached[place]], near.len(), start, leaders, reached);
        place += 1;
    }
}

/// Fills in the leaders. The greatest start comes first, so that one that has no leader yet is the
/// leader of all that it reaches.
fn fill_leaders(near: &[Vec<usize>], leaders: &mut [usize], reached: &mut Vec<usize>)
    requires rows { AreRows (length near.now) (map (λ row. row.items) near.now) }
    requires free { leaders.old ≡ replicate (length near.now) (length near.now) }
    requires capacity { length near.now ≤ vec_capacity reached.old }
    ensures { AreLeadersOf (length near.now) (map (λ row. row.items) near.now) leaders.new }
{
    for start in (0..near.len()).rev() {
        if leaders[start] == near.len() {
            lead_reached(near, start, leaders, reached);
        }
    }
}

/// For each index the greatest index that walks from it lead to.
pub fn leaders_of(alloc: Global, near: &[Vec<usize>]) -> Result<Vec<usize>, AllocError>
    requires { AreRows (length near.now) (map (λ row. row.items) near.now) }
    ensures { IfOk result (λ leaders. AreLeadersOf (length near.now) (map (λ row. row.items) near.now)
        leaders.items) }
{
    let mut leaders = vec![in alloc; near.len(); near.len()]?;
    let mut reached = Vec::with_capacity(alloc, near.len())?;
    fill_leaders(near, &mut leaders, &mut reached);
    Ok(leaders)
}
