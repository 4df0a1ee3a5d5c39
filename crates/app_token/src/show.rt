// Writing the text of a local state.
ghost use Rattle.std.specs.Prelude.{◌∷◌, OnErr, OnOk};
ghost use Rattle.std.specs.Io.KnownBytes.{Appends};
ghost use Rattle.action_tables.specs.RowText.{set_text};
ghost use Rattle.action_tables.specs.Written.{AppendsPrefix};
ghost use Rattle.app_token.specs.LocalText.{hold_text, local_text};

use crate::local::TokenLocal;
use action_tables::{WriteFault, put_bytes, put_list};
use std::io::Write;

/// Writes `hold` or `free`, and after a slash each the identifiers whose given bit is one and those
/// whose taken bit is one.
pub fn show<W: Write>(local: &TokenLocal, out: &mut W) -> Result<(), WriteFault>
    ensures ok { OnOk result (Appends (W.contents out.old) (W.contents out.new) (local_text local.now)) }
    ensures err { OnErr result (AppendsPrefix (W.contents out.old) (W.contents out.new) (local_text local.now)) }
{
    put_hold(out, local.hold)?;
    put_slash_ids(out, local.given.ids())?;
    put_slash_ids(out, local.taken.ids())
}

// Writes whether the token is held.
fn put_hold<W: Write>(out: &mut W, hold: bool) -> Result<(), WriteFault>
    ensures ok { OnOk result (Appends (W.contents out.old) (W.contents out.new) (hold_text hold)) }
    ensures err { OnErr result (AppendsPrefix (W.contents out.old) (W.contents out.new) (hold_text hold)) }
{
    if hold {
        put_bytes(out, b"hold")
    } else {
        put_bytes(out, b"free")
    }
}

// Writes a slash and the identifiers.
fn put_slash_ids<W: Write>(out: &mut W, ids: &[u32]) -> Result<(), WriteFault>
    ensures ok { OnOk result (Appends (W.contents out.old) (W.contents out.new) (47 ∷ set_text ids.now)) }
    ensures err { OnErr result (AppendsPrefix (W.contents out.old) (W.contents out.new) (47 ∷ set_text ids.now)) }
{
    put_bytes(out, b"/")?;
    put_list(out, ids)
}
