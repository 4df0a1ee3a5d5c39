// The application that does nothing.
ghost use Rattle.std.specs.Prelude.{None, codes, refl};
ghost use Rattle.app_interface.specs.Idle.{idle, idle_from_text};
ghost use Rattle.app_interface.specs.LawsOfIdle.{idle_cases, idle_keeps, idle_quiet, idle_word, one_idle_text};

use crate::application::Application;
use crate::reads::Reads;
use crate::refusal::{ClockRefusal, LocalFault};
use crate::view::{Here, Seen};
use action_tables::{WriteFault, put_bytes};
use std::alloc::{AllocError, Global};
use std::io::Write;
use topology::Topology;

// How the one local state is shown.
const TEXT: &[u8] = b"-";

/// The application without cases. Its one local state is shown as `-`.
pub struct Idle;

impl Application for Idle {
    type Local = ();

    ghost app = { idle };

    ghost names = { λ case. None };

    ghost IsLocal = { λ local. Unit {0} };

    ghost text = { λ local. codes "-" };

    ghost from_text = { idle_from_text };

    ghost Inv = { λ g v. Unit {0} };

    ghost are_cases = { idle_cases };

    ghost one_text = { one_idle_text };

    ghost one_word = { idle_word };

    ghost keeps = { λ g bound are whole some few. idle_keeps g bound are few };

    ghost starts = { λ g i j are node reached. refl };

    ghost quiet = { idle_quiet };

    fn cases() -> u8 {
        0
    }

    fn case_name(_case: u8) -> Option<&'static str> {
        None
    }

    fn reads(_case: u8) -> Option<Reads> {
        None
    }

    fn on_start(_alloc: Global, _topology: &Topology, _index: usize) -> Result<(), AllocError> {
        Ok(())
    }

    fn can(_here: Here, _case: u8, _with: Option<u32>, _own: &(), _seen: &[Seen<'_, ()>]) -> bool {
        false
    }

    fn on_clock(
        _alloc: Global,
        _here: Here,
        _case: u8,
        _with: Option<u32>,
        _own: &(),
        _seen: &[Seen<'_, ()>],
    ) -> Result<(), ClockRefusal> {
        Err(ClockRefusal::NotEnabled)
    }

    fn link_ok(_here: Here, _own: &(), _other: u32, _theirs: &()) -> Option<u8> {
        None
    }

    fn same(_a: &(), _b: &()) -> bool {
        true
    }

    fn copy(_alloc: Global, _local: &()) -> Result<(), AllocError> {
        Ok(())
    }

    fn show<W: Write>(_local: &(), out: &mut W) -> Result<(), WriteFault> {
        put_bytes(out, TEXT)
    }

    fn read_local(_alloc: Global, bytes: &[u8]) -> Result<(), LocalFault> {
        if bytes == TEXT {
            Ok(())
        } else {
            Err(LocalFault::BadLocal)
        }
    }

    fn lemma_is_local(_local: &()) {}
}
