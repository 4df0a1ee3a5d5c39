// An application whose start states tell the links, for tests.

ghost use Rattle.std.specs.Prelude.{None, refl};
ghost use Rattle.app_interface.specs.LawsOfIdle.{idle_cases};
ghost use Rattle.machine_tests.specs.BitText.{bit_from_text, bit_text, bit_word, one_bit_text};
ghost use Rattle.machine_tests.specs.LeaderStarts.{leader_starts};
ghost use Rattle.topology.specs.Components.{leader};
ghost use Rattle.topology.specs.Graph.{are_linked};

use action_tables::{WriteFault, put_bytes};
use app_interface::{Application, ClockRefusal, Here, LocalFault, Reads, Seen};
use std::alloc::{AllocError, Global};
use std::io::Write;
use topology::Topology;

/// The application without cases in which a node starts with whether it is linked to its leader, which one that is
/// down is not. There is never memory for the start state of a node with three links.
pub(crate) struct LeaderLink;

impl Application for LeaderLink {
    type Local = bool;

    ghost app = { record {
      count = 0;
      reads = λ case. None;
      start = λ g i. are_linked g i (leader g i);
      next = λ i bound case with own seen. None;
      link_fault = λ i bound own j theirs. None;
    } };

    ghost names = { λ case. None };

    ghost IsLocal = { λ local. Unit {0} };

    ghost text = { bit_text };

    ghost from_text = { bit_from_text };

    ghost Inv = { λ g v. Unit {0} };

    ghost are_cases = { idle_cases };

    ghost one_text = { one_bit_text };

    ghost one_word = { bit_word };

    ghost keeps = { λ g bound are whole some few. record {
      same = λ v v' h inv. tt;
      starts = tt;
      acts = λ i case with v v' h inv. tt;
    } };

    ghost starts = { leader_starts };

    ghost quiet = { λ g bound are few. record { at = λ v inv i j linked. refl } };

    fn cases() -> u8 {
        0
    }

    fn case_name(_case: u8) -> Option<&'static str> {
        None
    }

    fn reads(_case: u8) -> Option<Reads> {
        None
    }

    fn on_start(_alloc: Global, topology: &Topology, index: usize) -> Result<bool, AllocError> {
        let Some(id) = topology.id_at(index) else {
            return Ok(false);
        };
        if topology.neighbours(index).len() == 3 {
            return Err(AllocError);
        }
        topology.lemma_is_graph();
        Ok(topology.is_up(index) && topology.linked(id.get(), topology.greatest_of(index).get()))
    }

    fn can(
        _here: Here,
        _case: u8,
        _with: Option<u32>,
        _own: &bool,
        _seen: &[Seen<'_, bool>],
    ) -> bool {
        false
    }

    fn on_clock(
        _alloc: Global,
        _here: Here,
        _case: u8,
        _with: Option<u32>,
        _own: &bool,
        _seen: &[Seen<'_, bool>],
    ) -> Result<bool, ClockRefusal> {
        Err(ClockRefusal::NotEnabled)
    }

    fn link_ok(_here: Here, _own: &bool, _other: u32, _theirs: &bool) -> Option<u8> {
        None
    }

    fn same(a: &bool, b: &bool) -> bool {
        *a == *b
    }

    fn copy(_alloc: Global, local: &bool) -> Result<bool, AllocError> {
        Ok(*local)
    }

    fn show<W: Write>(local: &bool, out: &mut W) -> Result<(), WriteFault> {
        put_bytes(out, if *local { b"1" } else { b"0" })
    }

    fn read_local(_alloc: Global, bytes: &[u8]) -> Result<bool, LocalFault> {
        match bytes {
            b"1" => Ok(true),
            b"0" => Ok(false),
            _ => Err(LocalFault::BadLocal),
        }
    }

    fn lemma_is_local(_local: &bool) {}
}
