// The first bad line of a script.

ghost use Rattle.std.specs.Prelude.{◌≡◌, IfOk, IfSome, option_map};
ghost use Rattle.diagnoses.specs.Scripts.{is_bad};
ghost use Rattle.script_replay.specs.Left.{bad_line_of};
ghost use Rattle.script_replay.specs.Script.{line_of};
ghost use Rattle.script_replay.specs.declared.script.Line.TheVariants.{Bad};

use app_interface::Application;
use script_replay::{Line, read_line, split_line};
use std::alloc::{AllocError, Global};

/// A line of a text.
#[derive(Clone, Copy)]
pub struct NumberedLine<'t> {
    /// Its number, counted from 1.
    pub number: u64,
    /// What it has before its line feed.
    pub text: &'t [u8],
}

/// The first bad line of a script for an application, if one is bad.
pub fn first_bad_line<P: Application>(
    alloc: Global,
    script: &[u8],
) -> Result<Option<NumberedLine<'_>>, AllocError>
    ensures number { IfOk result
        (λ found. option_map (λ line. line.number) found ≡ bad_line_of P.names script.now) }
    ensures bad { IfOk result (λ found. IfSome found (λ line. line_of P.names line.text.now ≡ Bad)) }
{
    let mut rest = script;
    let mut number = 1;
    while let Some((text, after)) = split_line(rest) {
        if is_bad::<P>(alloc, text)? {
            return Ok(Some(NumberedLine { number, text }));
        }
        rest = after;
        number += 1;
    }
    if is_bad::<P>(alloc, rest)? {
        Ok(Some(NumberedLine { number, text: rest }))
    } else {
        Ok(None)
    }
}

// Whether a line is bad.
fn is_bad<P: Application>(alloc: Global, line: &[u8]) -> Result<bool, AllocError>
    ensures { IfOk result (λ bad. bad ≡ is_bad (line_of P.names line.now)) }
{
    match read_line::<P>(alloc, line)? {
        Line::Silent | Line::Asks(_) => Ok(false),
        Line::Bad => Ok(true),
    }
}
