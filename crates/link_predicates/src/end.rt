// One end of a link.

ghost use Rattle.std.specs.Prelude.{◌≡◌, ◌<◌, length, slice_index};
ghost use Rattle.reset_model.specs.View.{near_of};

use app_interface::Application;
use reset_machine::Config;
use std::marker::Model;
use tree_layer::TreeRegs;
use wave_layer::{Modulus, WaveRegs};

// What the distances are bounded by, and the number modulo which sessions are counted.
#[derive(Drop)]
pub(crate) struct Limits {
    pub k: u32,
    pub modulus: Modulus,
}

// A node at one end of a link: its identifier, its registers and its local state.
#[derive(Drop)]
pub(crate) struct End<'a, P: Application> {
    pub id: u32,
    pub tree: TreeRegs,
    pub wave: WaveRegs,
    pub local: &'a P::Local,
}

impl<'a, P: Application> Model for End<'a, P> {
    ghost use Rattle.reset_model.specs.View.{Neighbour};

    ghost Value = { Neighbour P.Local };

    ghost view = { λ n. record { id = n.id; tree = n.tree; wave = n.wave; local = n.local.now } };
}

// The node at an index.
pub(crate) fn end_at<'a, P: Application>(config: &'a Config<P>, index: usize) -> End<'a, P>
    requires { index < length config.now.graph.ids }
    ensures { result ≡ near_of P.app config.now (slice_index config.now.graph.ids index) }
{
    config.lemma_is_graph();
    End {
        id: config.topology().ids()[index],
        tree: config.trees()[index],
        wave: config.waves()[index],
        local: &config.locals()[index],
    }
}
