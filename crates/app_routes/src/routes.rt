// Routing tables as an application.
ghost use Rattle.std.specs.Prelude.{refl};
ghost use Rattle.app_routes.specs.Entries.{AreRoutes};
ghost use Rattle.app_routes.specs.Laws.{routes_keep};
ghost use Rattle.app_routes.specs.LawsOfLinks.{routes_quiet};
ghost use Rattle.app_routes.specs.LocalText.{routes_from_text, routes_text};
ghost use Rattle.app_routes.specs.Routes.{routes, routes_names};
ghost use Rattle.app_routes.specs.LawsOfCases.{routes_cases};
ghost use Rattle.app_routes.specs.LawsOfText.{one_routes_text, routes_word};
ghost use Rattle.app_routes.specs.Ways.{HasRoutes};

use crate::local::RoutesLocal;
use crate::{links, read, show, table};
use action_tables::WriteFault;
use app_interface::{Application, ClockRefusal, Here, LocalFault, Reads, Seen};
use std::alloc::{AllocError, Global};
use std::io::Write;
use topology::Topology;

// The case is pull.
const CASES: u8 = 1;

/// Routing tables. At the start each node knows the way to itself. Whatever the actions, each entry
/// counts the links of a walk to its destination, and names a neighbour that is nearer.
pub struct Routes;

impl Application for Routes {
    type Local = RoutesLocal;

    ghost app = { routes };

    ghost names = { routes_names };

    ghost IsLocal = { AreRoutes };

    ghost text = { routes_text };

    ghost from_text = { routes_from_text };

    ghost Inv = { HasRoutes };

    ghost are_cases = { routes_cases };

    ghost one_text = { one_routes_text };

    ghost one_word = { routes_word };

    ghost keeps = { λ g bound are whole some few. routes_keep g bound are few };

    ghost starts = { λ g i j are node reached. refl };

    ghost quiet = { routes_quiet };

    fn cases() -> u8 {
        CASES
    }

    fn case_name(case: u8) -> Option<&'static str> {
        table::case_name(case)
    }

    fn reads(case: u8) -> Option<Reads> {
        match case {
            1 => Some(Reads::One),
            _ => None,
        }
    }

    fn on_start(
        alloc: Global,
        topology: &Topology,
        index: usize,
    ) -> Result<RoutesLocal, AllocError> {
        match topology.id_at(index) {
            Some(id) => RoutesLocal::start(alloc, id),
            None => Ok(RoutesLocal::none(alloc)),
        }
    }

    fn can(
        here: Here,
        case: u8,
        with: Option<u32>,
        own: &RoutesLocal,
        seen: &[Seen<'_, RoutesLocal>],
    ) -> bool {
        table::can(here, case, with, own, seen)
    }

    fn on_clock(
        alloc: Global,
        here: Here,
        case: u8,
        with: Option<u32>,
        own: &RoutesLocal,
        seen: &[Seen<'_, RoutesLocal>],
    ) -> Result<RoutesLocal, ClockRefusal> {
        table::on_clock(alloc, here, case, with, own, seen)
    }

    fn link_ok(_here: Here, own: &RoutesLocal, other: u32, theirs: &RoutesLocal) -> Option<u8> {
        links::link_ok(own, other, theirs)
    }

    fn same(a: &RoutesLocal, b: &RoutesLocal) -> bool {
        a.same(b)
    }

    fn copy(alloc: Global, local: &RoutesLocal) -> Result<RoutesLocal, AllocError> {
        local.copy(alloc)
    }

    fn show<W: Write>(local: &RoutesLocal, out: &mut W) -> Result<(), WriteFault> {
        show::show(local, out)
    }

    fn read_local(alloc: Global, bytes: &[u8]) -> Result<RoutesLocal, LocalFault> {
        read::read_local(alloc, bytes)
    }

    fn lemma_is_local(local: &RoutesLocal) {
        let _ = local.entries();
    }
}
