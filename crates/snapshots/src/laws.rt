// Laws of snapshots.

ghost use Rattle.std.specs.Prelude.{ℕ, List};
ghost use Rattle.topology.specs.Graph.{Graph};
ghost use Rattle.reset_model.specs.Configuration.{Configuration};
ghost use Rattle.applications.specs.Meaning.{meaning_of};
ghost use Rattle.script_replay.specs.Output.{snapshot_text};
ghost use Rattle.snapshots.specs.Alike.{AreAlike};
ghost use Rattle.snapshots.specs.Named.{AreNamed, IsSnapshotOf};
ghost use Rattle.snapshots.specs.ReadBack.{IsWritable};
ghost use Rattle.snapshots.specs.declared.item.Item.{Item};

use app_invariants::Invariant;

/// Two configurations that the same items name, or the same text, have one graph and one modulus, and the same
/// registers and the same local state at each node.
pub fn one_snapshot<P: Invariant>()
    ensures items { (g : Graph) (modulus : ℕ) (items : List (Item P.Local)) (c d : Configuration P.Local)
        → AreNamed P.app g modulus items c → AreNamed P.app g modulus items d → AreAlike P.app c d }
    ensures text { (g : Graph) (modulus : ℕ) (text : List ℕ) (c d : Configuration P.Local)
        → IsSnapshotOf (meaning_of P.app P.text P.from_text P.names P.counts) g modulus text c
        → IsSnapshotOf (meaning_of P.app P.text P.from_text P.names P.counts) g modulus text d → AreAlike P.app c d }
{}

/// The text of a configuration is a snapshot of it.
pub fn snapshots_read_back<P: Invariant>()
    ensures { (g : Graph) (c : Configuration P.Local)
        → IsWritable (meaning_of P.app P.text P.from_text P.names P.counts) P.IsLocal g c
        → IsSnapshotOf (meaning_of P.app P.text P.from_text P.names P.counts) g c.modulus
        (snapshot_text (meaning_of P.app P.text P.from_text P.names P.counts) c) c }
{}
