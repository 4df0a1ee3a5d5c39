ghost use Rattle.std.specs.Prelude.{◌≡◌, ◌≢◌, ◌==◌, ℕ, ◌<◌, false, not, IfOk, filter, length, map};
ghost use Rattle.std.specs.List.Sorted.{IsStrictlyIncreasing};
ghost use Rattle.topology.specs.Building.{Inserts, Isolates, Links, Unlinks};
ghost use Rattle.topology.specs.Rows.{AreRows, near_has, row_at};

use std::alloc::{AllocError, Global};

/// Rows with no index, as many as `count`.
pub fn empty_rows(alloc: Global, count: usize) -> Result<Vec<Vec<usize>>, AllocError>
    ensures rows { IfOk result (λ near. AreRows count (map (λ row. row.items) near.items)) }
    ensures empty { IfOk result (λ near. (i j : ℕ) → near_has (map (λ row. row.items) near.items) i j ≡ false) }
{
    let mut near = Vec::new(alloc);
    for _index in 0..count {
        near.push(Vec::new(alloc))?;
    }
    Ok(near)
}

/// Puts an index into a row that may have it already, and says whether it was new.
fn insert_index(row: &mut Vec<usize>, index: usize) -> Result<bool, AllocError>
    requires { IsStrictlyIncreasing row.old.items }
    ensures { IfOk result (λ fresh. Inserts row.old.items index fresh row.new.items) }
{
    match row.binary_search(&index) {
        Ok(_) => Ok(false),
        Err(place) => {
            row.insert(place, index)?;
            Ok(true)
        }
    }
}

/// Puts two indexes into one another's rows, and says whether the link was new.
pub fn link(near: &mut [Vec<usize>], i: usize, j: usize) -> Result<bool, AllocError>
    requires rows { AreRows (length near.old) (map (λ row. row.items) near.old) }
    requires i_within { i < length near.old }
    requires j_within { j < length near.old }
    requires different { i ≢ j }
    ensures { IfOk result (λ fresh. Links (length near.old)
        (map (λ row. row.items) near.old) i j fresh (map (λ row. row.items) near.new)) }
{
    let fresh = insert_index(&mut near[i], j)?;
    let _ = insert_index(&mut near[j], i)?;
    Ok(fresh)
}

/// Takes an index out of a row.
fn remove_index(row: &mut Vec<usize>, index: usize)
    ensures { row.new.items ≡ filter (λ i. not (i == index)) row.old.items }
{
    row.retain(|i| *i != index);
}

/// Takes two indexes out of one another's rows.
pub fn unlink(near: &mut [Vec<usize>], i: usize, j: usize)
    requires rows { AreRows (length near.old) (map (λ row. row.items) near.old) }
    requires i_within { i < length near.old }
    requires j_within { j < length near.old }
    ensures { Unlinks (length near.old)
        (map (λ row. row.items) near.old) i j (map (λ row. row.items) near.new) }
{
    remove_index(&mut near[i], j);
    remove_index(&mut near[j], i);
}

/// Takes an index out of all rows, and all indexes out of its row, which `row` has too.
pub fn isolate(near: &mut [Vec<usize>], index: usize, row: &[usize])
    requires rows { AreRows (length near.old) (map (λ row. row.items) near.old) }
    requires within { index < length near.old }
    requires row { row.now ≡ row_at (map (λ row. row.items) near.old) index }
    ensures { Isolates (length near.old)
        (map (λ row. row.items) near.old) index (map (λ row. row.items) near.new) }
{
    for other in row {
        unlink(near, index, *other);
    }
}

/// Rows with the same indexes.
pub fn copied_rows(alloc: Global, near: &[Vec<usize>]) -> Result<Vec<Vec<usize>>, AllocError>
    ensures { IfOk result (λ copy. map (λ row. row.items) copy.items ≡ map (λ row. row.items) near.now) }
{
    let mut copy = Vec::new(alloc);
    for row in near {
        copy.push(row.to_vec(alloc)?)?;
    }
    Ok(copy)
}
