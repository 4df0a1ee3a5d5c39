ghost use Rattle.std.specs.Prelude.{◌≡◌, ◌≢◌, ◌+◌, ◌<◌, ◌≤◌, [], All, IfOk, length, map, replicate};
ghost use Rattle.std.specs.Vec.{vec_capacity};
ghost use Rattle.topology.specs.Rows.{AreRows};
ghost use Rattle.topology.specs.Searching.{AreDistances, MarksRow, QueuesMarked, unmarked};

use std::alloc::{AllocError, Global};

/// Puts a mark at the indexes of a row that have the mark `free`, and puts these indexes behind those
/// that were reached before.
pub fn mark_row(
    row: &[usize],
    free: usize,
    mark: usize,
    marks: &mut [usize],
    reached: &mut Vec<usize>,
)
    requires within { All (λ j. j < length marks.old) row.now }
    requires differs { 0 < unmarked free marks.old → mark ≢ free }
    requires capacity { length reached.old.items + unmarked free marks.old ≤ vec_capacity reached.old }
    ensures marked { MarksRow free row.now mark marks.old marks.new }
    ensures queued { QueuesMarked free mark marks.old marks.new reached.old.items reached.new.items }
    ensures capacity { vec_capacity reached.old ≤ vec_capacity reached.new }
{
    for index in row {
        if marks[*index] == free {
            marks[*index] = mark;
            reached.push(*index).unwrap();
        }
    }
}

/// Marks the start with 0, and each index that a walk leads to with its distance. They are reached in
/// the order of their distances, and in that order they have their turn: each row is read once.
fn mark_all(near: &[Vec<usize>], start: usize, marks: &mut [usize], reached: &mut Vec<usize>)
    requires rows { AreRows (length near.now) (map (λ row. row.items) near.now) }
    requires within { start < length near.now }
    requires free { marks.old ≡ replicate (length near.now) (length near.now) }
    requires empty { reached.old.items ≡ [] }
    requires capacity { length near.now ≤ vec_capacity reached.old }
    ensures { AreDistances (length near.now) (map (λ row. row.items) near.now) start marks.new }
{
    marks[start] = 0;
    reached.push(start).unwrap();
    let mut place = 0;
    while place < reached.len() {
        let index = reached[place];
        mark_row(&near[index], near.len(), marks[index] + 1, marks, reached);
        place += 1;
    }
}

/// The distance from each index to the start, and the number of rows where no walk leads there. Row k lists the indexes
/// that index k is linked with, in both directions. It fails only if an allocation fails.
pub fn distances_to(
    alloc: Global,
    near: &[Vec<usize>],
    start: usize,
) -> Result<Vec<usize>, AllocError>
    requires rows { AreRows (length near.now) (map (λ row. row.items) near.now) }
    requires within { start < length near.now }
    ensures { IfOk result (λ marks. AreDistances (length near.now) (map (λ row. row.items) near.now)
        start marks.items) }
{
    let mut marks = vec![in alloc; near.len(); near.len()]?;
    let mut reached = Vec::with_capacity(alloc, near.len())?;
    mark_all(near, start, &mut marks, &mut reached);
    Ok(marks)
}
