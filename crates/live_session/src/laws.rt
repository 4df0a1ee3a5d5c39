// What a session keeps.

ghost use Rattle.std.specs.Prelude.{◌≡◌, ◌++◌, ℕ, List, Option, Some};
ghost use Rattle.reset_model.specs.Configuration.{Configuration};
ghost use Rattle.applications.specs.Meaning.{meaning_of};
ghost use Rattle.history.specs.Entries.{replayed};
ghost use Rattle.history.specs.declared.entry.Entry.{Entry};
ghost use Rattle.live_session.specs.Course.{course, entries_of};

use app_invariants::Invariant;

/// The entries of a session lead from its configuration to the one that it leaves, each allowed where it stands. So where
/// entries led from an opening to its configuration, these and its own lead from there to what it leaves: the history
/// that it goes on with verifies as it did.
pub fn sessions_are_histories<P: Invariant>()
    ensures { (opening c : Configuration P.Local) (past : List Entry) (room : Option ℕ) (text : List ℕ)
        → replayed P.app P.from_text opening past ≡ Some c
        → replayed P.app P.from_text opening
        (past ++ entries_of (course (meaning_of P.app P.text P.from_text P.names P.counts) room c text).exchanges)
        ≡ Some (course (meaning_of P.app P.text P.from_text P.names P.counts) room c text).config }
{}
