// Which nodes take turns, and which of these wait. It lies under the lock, beside the book.

ghost use Rattle.std.specs.Prelude.{◌≡◌};
ghost use Rattle.node_threads.specs.Waiting.{count_waiting, one_if_waiting};

use std::alloc::{AllocError, Global};

/// How a node stands to what it saw last.
#[derive(Clone, Copy, Debug, PartialEq, Eq)]
pub enum Standing {
    /// No neighbour has changed since it looked.
    Current,
    /// A neighbour has changed since.
    Stale,
    /// No neighbour has changed since, and it waits for one that does, for it had nothing to do.
    Waiting,
}

// How many nodes take turns, how many nodes wait, and the standing of each node, by its index in the topology. A node
// without an index there never waits.
#[derive(Drop)]
pub(crate) struct Attendance {
    present: usize,
    waiting: usize,
    standings: Vec<Standing>,
    ghost counted: { waiting ≡ count_waiting standings.items },
}

impl Attendance {
    // No node takes turns yet.
    pub(crate) fn new(alloc: Global, nodes: usize) -> Result<Attendance, AllocError> {
        let mut standings = Vec::with_capacity(alloc, nodes)?;
        for _ in 0..nodes {
            standings.push(Standing::Current)?;
        }
        Ok(Attendance {
            present: 0,
            waiting: 0,
            standings,
        })
    }

    // So many nodes more are going to take turns.
    pub(crate) fn arrive(&mut self, count: usize) {
        self.present = self.present.saturating_add(count);
    }

    // The node takes no more turns.
    pub(crate) fn depart(&mut self, at: usize) {
        self.set(at, Standing::Current);
        self.present = self.present.saturating_sub(1);
    }

    // The node looks.
    pub(crate) fn look(&mut self, at: usize) {
        self.set(at, Standing::Current);
    }

    // The node has nothing to do. False where it has to look again, since a neighbour has changed.
    pub(crate) fn wait(&mut self, at: usize) -> bool {
        if self.standing(at) == Standing::Stale {
            return false;
        }
        self.set(at, Standing::Waiting);
        true
    }

    // A neighbour of these nodes has changed: who of them waited is to be woken.
    pub(crate) fn make_stale(&mut self, nodes: &[usize]) -> Sleepers {
        let mut sleepers = Sleepers { bits: 0 };
        for number in 0..nodes.len() {
            if self.is_waiting(nodes[number]) {
                sleepers.add(number);
            }
            self.set(nodes[number], Standing::Stale);
        }
        sleepers
    }

    // Whether the node waits.
    pub(crate) fn is_waiting(&self, at: usize) -> bool {
        self.standing(at) == Standing::Waiting
    }

    // Whether all nodes that take turns wait, so that none of them ever changes anything.
    pub(crate) fn all_wait(&self) -> bool {
        self.present <= self.waiting
    }

    fn standing(&self, at: usize) -> Standing {
        match self.standings.get(at) {
            Some(standing) => *standing,
            None => Standing::Stale,
        }
    }

    fn set(&mut self, at: usize, standing: Standing) {
        if at >= self.standings.len() {
            return;
        }
        let Attendance {
            present: _,
            waiting,
            standings,
        } = self;
        *waiting = *waiting - one_if_waiting(standings[at]) + one_if_waiting(standing);
        standings[at] = standing;
    }
}

// Which nodes of a list waited, by their numbers in it. A node of a round has fewer than 64 neighbours; of a list that is
// longer, those beyond are taken for such that waited, since to wake a node in vain does no harm.
#[derive(Clone, Copy)]
pub(crate) struct Sleepers {
    bits: u64,
}

impl Sleepers {
    fn add(&mut self, number: usize) {
        if number < 64 {
            self.bits |= 1 << number;
        }
    }

    // Whether the node with this number waited.
    pub(crate) fn has(self, number: usize) -> bool {
        number >= 64 || self.bits >> number & 1 == 1
    }
}

// 1 of a node that waits, and else 0.
fn one_if_waiting(standing: Standing) -> usize
    ensures { result ≡ one_if_waiting standing }
{
    match standing {
        Standing::Current => 0,
        Standing::Stale => 0,
        Standing::Waiting => 1,
    }
}
