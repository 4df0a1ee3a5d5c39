// What the headline asks of a program that is reset.

ghost use Rattle.std.specs.Prelude.{ℕ, ◌<◌, ◌≤◌, length};
ghost use Rattle.app_interface.specs.Application.{App};
ghost use Rattle.app_interface.specs.Invariant.{Keeps, StartsByComponent};
ghost use Rattle.topology.specs.Graph.{Graph, IsConnected, IsGraph};

use app_interface::Application;
use std::marker::PhantomData;

/// A program that runs at every node and is reset as a whole: what the headline asks of one.
pub trait Program {
    /// What a node keeps.
    type Local;

    // What the cases read, the start states, and what the cases do.
    ghost app: { App Self.Local };

    // What holds of the local states of all nodes from a reset on.
    ghost Inv: { Graph → (ℕ → Self.Local) → Type 0 };

    /// Does nothing. The ghost members that come after a trait's first function are its laws.
    fn marker();

    // On every connected graph with a node, and for every bound that the number of its identifiers doesn't
    // pass, the invariant holds at the start and each action keeps it.
    ghost keeps: { (g : Graph) (bound : ℕ) → IsGraph g → IsConnected g → 0 < length g.nodes
        → length g.ids ≤ bound → Keeps app g bound (Inv g) };

    // A node's start state depends on its component alone.
    ghost starts: { StartsByComponent app };
}

/// An application as such a program.
pub struct ProgramOf<P> {
    of: PhantomData<P>,
}

impl<P: Application> Program for ProgramOf<P> {
    type Local = P::Local;

    ghost app = { P.app };

    ghost Inv = { P.Inv };

    fn marker() {}

    ghost keeps = { P.keeps };

    ghost starts = { P.starts };
}
