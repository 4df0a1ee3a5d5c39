// The faults of a configuration.

ghost use Rattle.std.specs.Prelude.{◌≡◌, IfOk};

use crate::local_text::LocalText;
use std::alloc::{AllocError, Global};
use tree_layer::TreeRegs;
use wave_layer::WaveRegs;

/// A disturbance of a configuration, of a kind that no event is. Nodes are named by their
/// identifiers.
#[derive(Debug, PartialEq, Eq, Drop)]
pub enum Fault {
    /// The node's tree registers become these.
    SetTree { at: u32, regs: TreeRegs },
    /// The node's wave registers become these.
    SetWave { at: u32, regs: WaveRegs },
    /// The node's local state becomes the one with this text.
    SetLocal { at: u32, text: LocalText },
    /// The link between these two goes down.
    LinkDown { a: u32, b: u32 },
    /// A link between these two comes up.
    LinkUp { a: u32, b: u32 },
    /// The node goes down, and its links are gone for good.
    NodeDown { at: u32 },
    /// The node comes up, and begins anew, without links.
    NodeUp { at: u32 },
}

impl Fault {
    /// The same fault.
    pub fn copy(&self, alloc: Global) -> Result<Fault, AllocError>
        ensures { IfOk result (λ copy. copy ≡ self.now) }
    {
        let copy = match self {
            Fault::SetTree { at, regs } => Fault::SetTree {
                at: *at,
                regs: *regs,
            },
            Fault::SetWave { at, regs } => Fault::SetWave {
                at: *at,
                regs: *regs,
            },
            Fault::SetLocal { at, text } => Fault::SetLocal {
                at: *at,
                text: text.copy(alloc)?,
            },
            Fault::LinkDown { a, b } => Fault::LinkDown { a: *a, b: *b },
            Fault::LinkUp { a, b } => Fault::LinkUp { a: *a, b: *b },
            Fault::NodeDown { at } => Fault::NodeDown { at: *at },
            Fault::NodeUp { at } => Fault::NodeUp { at: *at },
        };
        Ok(copy)
    }
}
