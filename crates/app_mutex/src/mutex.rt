// Neighbour exclusion as an application.
ghost use Rattle.std.specs.Prelude.{refl};
ghost use Rattle.app_mutex.specs.Laws.{mutex_keeps};
ghost use Rattle.app_mutex.specs.LawsOfLinks.{mutex_quiet};
ghost use Rattle.app_mutex.specs.LocalText.{local_text, mutex_from_text};
ghost use Rattle.app_mutex.specs.Mutex.{mutex, mutex_names};
ghost use Rattle.app_mutex.specs.LawsOfCases.{mutex_cases};
ghost use Rattle.app_mutex.specs.LawsOfText.{one_mutex_text, mutex_word};
ghost use Rattle.app_mutex.specs.Turns.{HoldsTurns};

use crate::local::MutexLocal;
use crate::{links, table, text};
use action_tables::WriteFault;
use app_interface::{Application, ClockRefusal, Here, LocalFault, Reads, Seen};
use std::alloc::{AllocError, Global};
use std::io::Write;
use topology::Topology;

// The cases are enter and leave.
const CASES: u8 = 2;

/// Neighbour exclusion by edge reversal. At the start no node is in. Whatever the actions, a node
/// that is in holds the turn of each of its links, and so none of its neighbours is in.
pub struct EdgeReversal;

impl Application for EdgeReversal {
    type Local = MutexLocal;

    ghost app = { mutex };

    ghost names = { mutex_names };

    ghost IsLocal = { λ local. Unit {0} };

    ghost text = { local_text };

    ghost from_text = { mutex_from_text };

    ghost Inv = { HoldsTurns };

    ghost are_cases = { mutex_cases };

    ghost one_text = { one_mutex_text };

    ghost one_word = { mutex_word };

    ghost keeps = { λ g bound are whole some few. mutex_keeps g bound are few };

    ghost starts = { λ g i j are node reached. refl };

    ghost quiet = { mutex_quiet };

    fn cases() -> u8 {
        CASES
    }

    fn case_name(case: u8) -> Option<&'static str> {
        table::case_name(case)
    }

    fn reads(case: u8) -> Option<Reads> {
        match case {
            1 => Some(Reads::All),
            2 => Some(Reads::Alone),
            _ => None,
        }
    }

    fn on_start(
        _alloc: Global,
        _topology: &Topology,
        _index: usize,
    ) -> Result<MutexLocal, AllocError> {
        Ok(MutexLocal {
            inside: false,
            bit: false,
        })
    }

    fn can(
        here: Here,
        case: u8,
        with: Option<u32>,
        own: &MutexLocal,
        seen: &[Seen<'_, MutexLocal>],
    ) -> bool {
        table::can(here.id, case, with, own, seen)
    }

    fn on_clock(
        _alloc: Global,
        here: Here,
        case: u8,
        with: Option<u32>,
        own: &MutexLocal,
        seen: &[Seen<'_, MutexLocal>],
    ) -> Result<MutexLocal, ClockRefusal> {
        table::on_clock(here.id, case, with, own, seen)
    }

    fn link_ok(here: Here, own: &MutexLocal, other: u32, theirs: &MutexLocal) -> Option<u8> {
        links::link_ok(here.id, own, other, theirs)
    }

    fn same(a: &MutexLocal, b: &MutexLocal) -> bool {
        a == b
    }

    fn copy(_alloc: Global, local: &MutexLocal) -> Result<MutexLocal, AllocError> {
        Ok(*local)
    }

    fn show<W: Write>(local: &MutexLocal, out: &mut W) -> Result<(), WriteFault> {
        text::show(*local, out)
    }

    fn read_local(_alloc: Global, bytes: &[u8]) -> Result<MutexLocal, LocalFault> {
        text::read_local(bytes)
    }

    fn lemma_is_local(_local: &MutexLocal) {}
}
