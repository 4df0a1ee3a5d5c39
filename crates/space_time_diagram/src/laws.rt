// What a picture shows.

ghost use Rattle.std.specs.Prelude.{◌≡◌, ℕ, ◌<◌, ◌≤◌, Contains, List, Option, Some, length, take};
ghost use Rattle.topology.specs.Graph.{IsGraph};
ghost use Rattle.wave_layer.specs.declared.regs.WaveRegs.{WaveRegs};
ghost use Rattle.reset_model.specs.Configuration.{Configuration, IsShaped, tree_of};
ghost use Rattle.history.specs.declared.entry.Entry.{Entry};
ghost use Rattle.history.specs.Entries.{replayed};
ghost use Rattle.space_time_diagram.specs.Bands.{bands_of, shown_of};
ghost use Rattle.space_time_diagram.specs.Lanes.{lane_of};
ghost use Rattle.space_time_diagram.specs.Page.{row_y};
ghost use Rattle.space_time_diagram.specs.Shown.{seen};

use app_interface::Application;
use history::replays_stay_shaped;

/// What a picture of some nodes shows of one of them in the row of a position, where a later band is painted over an
/// earlier one, is what the wave registers of the node are after the entries up to that position if it is up there, and
/// that it is down if it isn't. Row 0 shows the opening.
pub fn bands_show_registers<P: Application>()
    ensures { (c here : Configuration P.Local) (nodes : List ℕ) (es : List Entry) (place i : ℕ)
        (before : Option WaveRegs) → IsGraph c.graph → IsShaped c → Contains nodes i → Contains c.graph.ids i
        → place ≤ length es → replayed P.app P.from_text c (take place es) ≡ Some here
        → seen i (row_y place) before (bands_of P.app P.from_text nodes c es) ≡ shown_of here i }
{
    replays_stay_shaped::<P>();
}

/// Each of the nodes of a picture, up or down, has a lane of its own, among the first as many as there are of them, and
/// those nearer to the root have theirs before the others.
pub fn nodes_have_lanes<P: Application>()
    ensures apart { (c : Configuration P.Local) (nodes : List ℕ) (i j : ℕ) → Contains nodes i → Contains nodes j
        → lane_of nodes c i ≡ lane_of nodes c j → i ≡ j }
    ensures within { (c : Configuration P.Local) (nodes : List ℕ) (i : ℕ) → Contains nodes i
        → lane_of nodes c i < length nodes }
    ensures nearer { (c : Configuration P.Local) (nodes : List ℕ) (i j : ℕ) → Contains nodes i
        → (tree_of c i).dist < (tree_of c j).dist → lane_of nodes c i < lane_of nodes c j }
{}
