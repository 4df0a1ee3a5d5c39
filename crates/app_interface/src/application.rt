// The trait of applications.
ghost use Rattle.std.specs.Prelude.{◌≡◌, ℕ, ◌<◌, ◌≤◌, ◌↔◌, List, Option, None, Some, Err, IsTrue, IfOk, IfSome, OnOk, OnErr};
ghost use Rattle.std.specs.Prelude.{is_some, length, option_map, slice_get};
ghost use Rattle.std.specs.Io.KnownBytes.{Appends};
ghost use Rattle.action_tables.specs.Written.{AppendsPrefix};
ghost use Rattle.app_interface.specs.Application.{App};
ghost use Rattle.app_interface.specs.Cases.{AreCases};
ghost use Rattle.app_interface.specs.Invariant.{IsQuiet, Keeps, StartsByComponent};
ghost use Rattle.app_interface.specs.PrintableWord.{IsPrintableWord};
ghost use Rattle.app_interface.specs.Views.{seen_values};
ghost use Rattle.topology.specs.Graph.{Graph, IsConnected, IsGraph};

use crate::reads::Reads;
use crate::refusal::{ClockRefusal, LocalFault};
use crate::view::{Here, Seen};
use action_tables::WriteFault;
use std::alloc::{AllocError, Global};
use std::io::Write;
use topology::Topology;

/// A program that runs at every node and is reset as a whole.
///
/// Its actions are numbered cases. A case reads the node's own local state and those of the
/// neighbours that [`reads`](Application::reads) says, and leaves the node a new local state.
pub trait Application: Send + Sync {
    /// What a node keeps.
    type Local: Drop + Send;

    // What the cases read, the start states, and what the cases do.
    ghost app: { App Self.Local };

    // What each case is called.
    ghost names: { ℕ → Option (List ℕ) };

    // What holds of each local state that the program can have.
    ghost IsLocal: { Self.Local → Type 0 };

    // The text of a local state.
    ghost text: { Self.Local → List ℕ };

    // The local state with a text, where there is one.
    ghost from_text: { List ℕ → Option Self.Local };

    // What holds of the local states of all nodes from a reset on.
    ghost Inv: { Graph → (ℕ → Self.Local) → Type 0 };

    /// How many cases there are, at most 16.
    fn cases() -> u8
        ensures { result ≡ app.count };

    /// The name of a case. None outside 1 to [`cases`](Application::cases).
    fn case_name(case: u8) -> Option<&'static str>
        ensures { option_map (λ name. name.now) result ≡ names case };

    /// What a case reads. None outside 1 to [`cases`](Application::cases).
    fn reads(case: u8) -> Option<Reads>
        ensures { result ≡ app.reads case };

    /// The declared start state of the identifier at this index, up or down, and any where none has it.
    fn on_start(alloc: Global, topology: &Topology, index: usize) -> Result<Self::Local, AllocError>
        ensures { IfSome (slice_get topology.now.ids index)
            (λ id. IfOk result (λ local. local ≡ app.start topology.now id)) };

    /// Whether the case is enabled, where `seen` holds the neighbours that it reads, ascending.
    fn can(
        here: Here,
        case: u8,
        with: Option<u32>,
        own: &Self::Local,
        seen: &[Seen<'_, Self::Local>],
    ) -> bool
        ensures { result ≡ is_some (app.next here.id here.k case with own.now (seen_values seen.now)) };

    /// The local state that the case leaves, or `NotEnabled` exactly where [`can`](Application::can) is false.
    fn on_clock(
        alloc: Global,
        here: Here,
        case: u8,
        with: Option<u32>,
        own: &Self::Local,
        seen: &[Seen<'_, Self::Local>],
    ) -> Result<Self::Local, ClockRefusal>
        ensures ok { IfOk result (λ new. app.next here.id here.k case with own.now (seen_values seen.now) ≡ Some new) }
        ensures not_enabled { result ≡ Err ClockRefusal.NotEnabled
            ↔ app.next here.id here.k case with own.now (seen_values seen.now) ≡ None };

    /// The least failing row of the link table, asked at this node of its link to `other`. None where
    /// the link is good.
    fn link_ok(here: Here, own: &Self::Local, other: u32, theirs: &Self::Local) -> Option<u8>
        ensures { result ≡ app.link_fault here.id here.k own.now other theirs.now };

    /// Whether the two are equal.
    fn same(a: &Self::Local, b: &Self::Local) -> bool
        ensures { IsTrue result ↔ a.now ≡ b.now };

    /// A copy.
    fn copy(alloc: Global, local: &Self::Local) -> Result<Self::Local, AllocError>
        ensures { IfOk result (λ copy. copy ≡ local.now) };

    /// Writes the text of a local state.
    fn show<W: Write>(local: &Self::Local, out: &mut W) -> Result<(), WriteFault>
        ensures ok { OnOk result (Appends (W.contents out.old) (W.contents out.new) (text local.now)) }
        ensures err { OnErr result (AppendsPrefix (W.contents out.old) (W.contents out.new) (text local.now)) };

    /// The local state with this text, `BadLocal` where there is none.
    fn read_local(alloc: Global, bytes: &[u8]) -> Result<Self::Local, LocalFault>
        ensures ok { IfOk result (λ local. from_text bytes.now ≡ Some local) }
        ensures bad { result ≡ Err LocalFault.BadLocal → from_text bytes.now ≡ None };

    /// What holds of each local state.
    fn lemma_is_local(local: &Self::Local)
        ensures { IsLocal local.now };

    // A case from 1 to the number of cases has a name and reads something, and no other number has.
    ghost are_cases: { AreCases app.count names app.reads };

    // A text is that of one local state, or of none.
    ghost one_text: { (t : List ℕ) (local : Self.Local)
        → (from_text t ≡ Some local ↔ IsLocal local × (text local ≡ t)) };

    // The text of a local state is one word of a line, of printable bytes.
    ghost one_word: { (local : Self.Local) → IsLocal local → IsPrintableWord (text local) };

    // On every connected graph with a node, and for every bound that the number of its identifiers doesn't
    // pass, the invariant holds at the start and each action keeps it.
    ghost keeps: { (g : Graph) (bound : ℕ) → IsGraph g → IsConnected g → 0 < length g.nodes
        → length g.ids ≤ bound → Keeps app g bound (Inv g) };

    // A node's start state hangs on its component alone.
    ghost starts: { StartsByComponent app };

    // And wherever the invariant holds, each link is good at both ends.
    ghost quiet: { (g : Graph) (bound : ℕ) → IsGraph g → length g.ids ≤ bound → IsQuiet app g bound (Inv g) };
}
