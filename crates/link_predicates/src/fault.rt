// What the checker reports.

ghost use Rattle.std.specs.Prelude.{◌≡◌};
ghost use Rattle.link_predicates.specs.Faults.{family_name, repair_of, tree_repair};

use reset_machine::Event;

/// Whose predicate fails.
#[derive(Clone, Copy, Debug, PartialEq, Eq)]
pub enum Family {
    /// The tree's.
    Tree,
    /// The wave's.
    Wave,
    /// The application's.
    App,
}

impl Family {
    /// Its name, as the lines of faults have it.
    pub fn name(self) -> &'static str
        ensures { result.now ≡ family_name self }
    {
        match self {
            Family::Tree => "tree",
            Family::Wave => "wave",
            Family::App => "app",
        }
    }
}

/// A row that fails at a node's end of a link, or at the node itself, where `other` is the node.
#[derive(Clone, Copy, Debug, PartialEq, Eq)]
pub struct LinkFault {
    /// The node.
    pub at: u32,
    /// The node at the other end.
    pub other: u32,
    /// Whose row it is.
    pub family: Family,
    /// The row: from 1 to 8 of the tree table, from 8 to 11 of the wave table, or from 1 of the
    /// application's link table.
    pub row: u8,
}

impl LinkFault {
    /// The event of the row, which repairs the fault: none where the row is the application's.
    pub fn repair(self) -> Option<Event>
        ensures { result ≡ repair_of self }
    {
        match self.family {
            Family::Tree => Some(self.tree_repair()),
            Family::Wave => Some(Event::Mend { at: self.at }),
            Family::App => None,
        }
    }

    // The event of a row of the tree table.
    fn tree_repair(self) -> Event
        ensures { result ≡ tree_repair self }
    {
        let at = self.at;
        if self.row < 5 {
            Event::Claim { at }
        } else if self.row < 7 {
            Event::Follow { at }
        } else {
            let from = self.other;
            Event::Adopt { at, from }
        }
    }
}
