// Token passing as an application.
ghost use Rattle.app_token.specs.Laws.{token_keeps, token_starts};
ghost use Rattle.app_token.specs.LocalText.{IsTokenLocal, local_text, token_from_text};
ghost use Rattle.app_token.specs.OneToken.{HasOneToken};
ghost use Rattle.app_token.specs.LawsOfText.{one_token_text, token_word};
ghost use Rattle.app_token.specs.Token.{token, token_names};
ghost use Rattle.app_token.specs.LawsOfCases.{token_cases};
ghost use Rattle.app_token.specs.LawsOfLinks.{token_quiet};

use crate::local::TokenLocal;
use crate::{links, read, show, table};
use action_tables::WriteFault;
use app_interface::{Application, ClockRefusal, Here, LocalFault, Reads, Seen};
use std::alloc::{AllocError, Global};
use std::io::Write;
use topology::Topology;

// The cases are pass and take.
const CASES: u8 = 2;

/// Token passing. At the start the greatest node of each component holds its token. Whatever the actions,
/// one node of the component holds it or it is on its way over one link.
pub struct Token;

impl Application for Token {
    type Local = TokenLocal;

    ghost app = { token };

    ghost names = { token_names };

    ghost IsLocal = { IsTokenLocal };

    ghost text = { local_text };

    ghost from_text = { token_from_text };

    ghost Inv = { HasOneToken };

    ghost are_cases = { token_cases };

    ghost one_text = { one_token_text };

    ghost one_word = { token_word };

    ghost keeps = { token_keeps };

    ghost starts = { token_starts };

    ghost quiet = { token_quiet };

    fn cases() -> u8 {
        CASES
    }

    fn case_name(case: u8) -> Option<&'static str> {
        table::case_name(case)
    }

    fn reads(case: u8) -> Option<Reads> {
        match case {
            1 => Some(Reads::Toward),
            2 => Some(Reads::One),
            _ => None,
        }
    }

    fn on_start(
        alloc: Global,
        topology: &Topology,
        index: usize,
    ) -> Result<TokenLocal, AllocError> {
        let hold = match topology.id_at(index) {
            Some(id) => topology.is_up(index) && id == topology.greatest_of(index),
            None => false,
        };
        Ok(TokenLocal::start(alloc, hold))
    }

    fn can(
        here: Here,
        case: u8,
        with: Option<u32>,
        own: &TokenLocal,
        seen: &[Seen<'_, TokenLocal>],
    ) -> bool {
        table::can(here, case, with, own, seen)
    }

    fn on_clock(
        alloc: Global,
        here: Here,
        case: u8,
        with: Option<u32>,
        own: &TokenLocal,
        seen: &[Seen<'_, TokenLocal>],
    ) -> Result<TokenLocal, ClockRefusal> {
        table::on_clock(alloc, here, case, with, own, seen)
    }

    fn link_ok(here: Here, own: &TokenLocal, other: u32, theirs: &TokenLocal) -> Option<u8> {
        links::link_ok(here.id, own, other, theirs)
    }

    fn same(a: &TokenLocal, b: &TokenLocal) -> bool {
        a.same(b)
    }

    fn copy(alloc: Global, local: &TokenLocal) -> Result<TokenLocal, AllocError> {
        local.copy(alloc)
    }

    fn show<W: Write>(local: &TokenLocal, out: &mut W) -> Result<(), WriteFault> {
        show::show(local, out)
    }

    fn read_local(alloc: Global, bytes: &[u8]) -> Result<TokenLocal, LocalFault> {
        read::read_local(alloc, bytes)
    }

    fn lemma_is_local(local: &TokenLocal) {
        local.lemma_is_local();
    }
}
