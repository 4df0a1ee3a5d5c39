// Where the latest opening at each node is.

ghost use Rattle.std.specs.Prelude.{◌≡◌, ℕ, ◌<◌, ◌≤◌, ◌==◌, if◌then◌else◌, length, Some, None, OnOk};
ghost use Rattle.history.specs.Played.{IsWithin, told};

use std::alloc::{AllocError, Global};

// The positions of the latest openings, by the index of the node. A fault takes them all out by its own
// position, so that none is written for it.
#[derive(Drop)]
pub struct Openings {
    positions: Vec<usize>,
    last_fault: usize,
}

impl Openings {
    // No opening, and no room for one.
    pub fn new(alloc: Global) -> Openings
        ensures none { (k : ℕ) → told result k ≡ None }
        ensures within { IsWithin result 0 }
    {
        Openings {
            positions: Vec::new(alloc),
            last_fault: 0,
        }
    }

    // Makes room for that many nodes.
    #[inline(always)]
    pub fn make_room(&mut self, nodes: usize) -> Result<(), AllocError>
        ensures room { OnOk result (nodes ≤ length self.new.positions.items) }
        ensures same { (k : ℕ) → told self.new k ≡ told self.old k }
        ensures within { (n : ℕ) → IsWithin self.old n → IsWithin self.new n }
    {
        for _ in self.positions.len()..nodes {
            self.positions.push(0)?;
        }
        Ok(())
    }

    // The position of the latest opening at the node with this index, since the last fault.
    pub fn latest(&self, index: usize) -> Option<usize>
        ensures { result ≡ told self.now index }
    {
        match self.positions.get(index) {
            Some(position) if *position > self.last_fault => Some(*position),
            _ => None,
        }
    }

    // Puts an opening at the node with this index.
    pub fn open(&mut self, index: usize, position: usize)
        requires { index < length self.old.positions.items }
        ensures told { (n k : ℕ) → IsWithin self.old n → n < position
            → told self.new k ≡ (if k == index then Some position else told self.old k) }
        ensures within { (n : ℕ) → IsWithin self.old n → n ≤ position → IsWithin self.new position }
    {
        self.positions[index] = position;
    }

    // Takes all openings out.
    pub fn disturb(&mut self, position: usize)
        ensures none { (n k : ℕ) → IsWithin self.old n → n ≤ position → told self.new k ≡ None }
        ensures within { (n : ℕ) → IsWithin self.old n → n ≤ position → IsWithin self.new position }
    {
        self.last_fault = position;
    }
}
