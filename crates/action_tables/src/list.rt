// Lists that are written item by item.
ghost use Rattle.std.specs.Prelude.{◌∷◌, OnErr, OnOk};
ghost use Rattle.std.specs.Fmt.{decimal};
ghost use Rattle.std.specs.Io.KnownBytes.{Appends};
ghost use Rattle.std.specs.List.{flat_map};
ghost use Rattle.action_tables.specs.Lists.{list_text};
ghost use Rattle.action_tables.specs.Written.{AppendsPrefix};

use crate::put::{WriteFault, put_bytes, put_number};
use std::io::Write;

/// An item of a list, which has a text.
pub trait ListItem {
    ghost use Rattle.std.specs.Prelude.{ℕ, List};

    // The text of an item.
    ghost text: { Self → List ℕ };

    /// Writes the text of the item.
    fn put<W: Write>(&self, out: &mut W) -> Result<(), WriteFault>
        ensures ok { OnOk result (Appends (W.contents out.old) (W.contents out.new) (text self.now)) }
        ensures err { OnErr result (AppendsPrefix (W.contents out.old) (W.contents out.new) (text self.now)) };
}

/// A number is written in decimal digits.
impl ListItem for u32 {
    ghost text = { decimal };

    fn put<W: Write>(&self, out: &mut W) -> Result<(), WriteFault> {
        put_number(out, u64::from(*self))
    }
}

/// Writes the items joined by commas, or `-` where there is none.
pub fn put_list<W: Write, T: ListItem>(out: &mut W, items: &[T]) -> Result<(), WriteFault>
    ensures ok { OnOk result (Appends (W.contents out.old) (W.contents out.new) (list_text T.text items.now)) }
    ensures err { OnErr result (AppendsPrefix (W.contents out.old) (W.contents out.new) (list_text T.text items.now)) }
{
    match items {
        [] => put_bytes(out, b"-"),
        [first, rest @ ..] => {
            first.put(out)?;
            put_more(out, rest)
        }
    }
}

// Writes each item after a comma.
fn put_more<W: Write, T: ListItem>(out: &mut W, items: &[T]) -> Result<(), WriteFault>
    ensures ok { OnOk result
        (Appends (W.contents out.old) (W.contents out.new) (flat_map (λ item. 44 ∷ T.text item) items.now)) }
    ensures err { OnErr result
        (AppendsPrefix (W.contents out.old) (W.contents out.new) (flat_map (λ item. 44 ∷ T.text item) items.now)) }
{
    for item in items {
        put_after_comma(out, item)?;
    }
    Ok(())
}

// Writes a comma and the item.
fn put_after_comma<W: Write, T: ListItem>(out: &mut W, item: &T) -> Result<(), WriteFault>
    ensures ok { OnOk result (Appends (W.contents out.old) (W.contents out.new) (44 ∷ T.text item.now)) }
    ensures err { OnErr result (AppendsPrefix (W.contents out.old) (W.contents out.new) (44 ∷ T.text item.now)) }
{
    put_bytes(out, b",")?;
    item.put(out)
}
