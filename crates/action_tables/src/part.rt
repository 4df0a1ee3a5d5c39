// Lines that are written part by part.
ghost use Rattle.std.specs.Prelude.{OnOk, OnErr};
ghost use Rattle.std.specs.Io.KnownBytes.{Appends};
ghost use Rattle.std.specs.List.{flat_map};
ghost use Rattle.action_tables.specs.RowText.{case_above, part_text, set_text};
ghost use Rattle.action_tables.specs.Written.{AppendsPrefix};

use crate::case_set::CaseSet;
use crate::put::{WriteFault, put_bytes, put_number};
use std::io::Write;

// The numbers that a set may hold.
const ALL_CASES: &[u8] = &[1, 2, 3, 4, 5, 6, 7, 8, 9, 10, 11, 12, 13, 14, 15, 16];

/// A part of a line.
#[derive(Clone, Copy)]
pub enum Part<'t> {
    /// Bytes as they stand.
    Text(&'t [u8]),
    /// A number in decimal digits.
    Number(u64),
    /// The numbers of a set, ascending and joined by commas, or a dash where there is none.
    Cases(CaseSet),
}

/// Writes the parts, one after the other.
pub fn put_parts<W: Write>(out: &mut W, parts: &[Part<'_>]) -> Result<(), WriteFault>
    ensures ok { OnOk result (Appends (W.contents out.old) (W.contents out.new) (flat_map part_text parts.now)) }
    ensures err { OnErr result
        (AppendsPrefix (W.contents out.old) (W.contents out.new) (flat_map part_text parts.now)) }
{
    for part in parts {
        put_part(out, part)?;
    }
    Ok(())
}

fn put_part<W: Write>(out: &mut W, part: &Part<'_>) -> Result<(), WriteFault>
    ensures ok { OnOk result (Appends (W.contents out.old) (W.contents out.new) (part_text part.now)) }
    ensures err { OnErr result (AppendsPrefix (W.contents out.old) (W.contents out.new) (part_text part.now)) }
{
    match *part {
        Part::Text(text) => put_bytes(out, text),
        Part::Number(number) => put_number(out, number),
        Part::Cases(set) => put_set(out, set),
    }
}

// Writes the numbers of a set, or a dash where there is none.
fn put_set<W: Write>(out: &mut W, set: CaseSet) -> Result<(), WriteFault>
    ensures ok { OnOk result (Appends (W.contents out.old) (W.contents out.new) (set_text set)) }
    ensures err { OnErr result (AppendsPrefix (W.contents out.old) (W.contents out.new) (set_text set)) }
{
    set.lemma_is_listed();
    match set.first() {
        None => put_bytes(out, b"-"),
        Some(first) => {
            put_number(out, u64::from(first))?;
            put_cases_above(out, set, first, ALL_CASES)
        }
    }
}

// Writes a comma and its number for each of the cases that is in the set and above this one.
fn put_cases_above<W: Write>(
    out: &mut W,
    set: CaseSet,
    number: u8,
    cases: &[u8],
) -> Result<(), WriteFault>
    ensures ok { OnOk result
        (Appends (W.contents out.old) (W.contents out.new) (flat_map (case_above set number) cases.now)) }
    ensures err { OnErr result
        (AppendsPrefix (W.contents out.old) (W.contents out.new) (flat_map (case_above set number) cases.now)) }
{
    for case in cases {
        put_case_above(out, set, number, *case)?;
    }
    Ok(())
}

// Writes a comma and the number of the case, where it is in the set and above this one.
fn put_case_above<W: Write>(
    out: &mut W,
    set: CaseSet,
    number: u8,
    case: u8,
) -> Result<(), WriteFault>
    ensures ok { OnOk result (Appends (W.contents out.old) (W.contents out.new) (case_above set number case)) }
    ensures err { OnErr result (AppendsPrefix (W.contents out.old) (W.contents out.new) (case_above set number case)) }
{
    if set.has(case) && case > number {
        put_bytes(out, b",")?;
        put_number(out, u64::from(case))
    } else {
        Ok(())
    }
}
