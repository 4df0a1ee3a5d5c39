// What holds of all pages.

ghost use Rattle.std.specs.Prelude.{◌≡◌, ℕ, false, List, Some};
ghost use Rattle.action_tables.specs.Cuts.{HasNo};
ghost use Rattle.topology.specs.Graph.{IsGraph, has};
ghost use Rattle.reset_model.specs.Configuration.{Configuration, IsShaped};
ghost use Rattle.history.specs.declared.entry.Entry.{Entry};
ghost use Rattle.history.specs.Entries.{entered};
ghost use Rattle.history_page.specs.Entries.{concerned};
ghost use Rattle.history_page.specs.Failing.{failing};
ghost use Rattle.history_page.specs.Page.{data_text};

use app_interface::Application;

/// No byte of the data is `<`, by which alone its element could end, whatever the title, the name and the texts of the
/// local states are.
pub fn data_is_harmless<P: Application>()
    ensures { (title name : List ℕ) (c : Configuration P.Local) (es : List Entry)
        → HasNo 60 (data_text P.app P.text P.from_text title name c es) }
{}

/// An entry changes what fails at the nodes alone that it concerns: its own, the neighbours that this has, and the one
/// that it gets. So the fields of a page name all that fails, at all nodes and after each entry.
pub fn failing_elsewhere_stays<P: Application>()
    ensures { (c after : Configuration P.Local) (e : Entry) (j : ℕ) → IsGraph c.graph → IsShaped c
        → entered P.app P.from_text c e ≡ Some after → has (concerned c.graph e) j ≡ false
        → failing P.app after j ≡ failing P.app c j }
{}
