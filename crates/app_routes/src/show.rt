// Writing the text of a local state.
ghost use Rattle.std.specs.Prelude.{OnErr, OnOk};
ghost use Rattle.std.specs.Io.KnownBytes.{Appends};
ghost use Rattle.action_tables.specs.Written.{AppendsPrefix};
ghost use Rattle.app_routes.specs.LocalText.{entry_text, routes_text};

use crate::entry::Entry;
use crate::local::RoutesLocal;
use action_tables::{ListItem, Part, WriteFault, put_list, put_parts};
use std::io::Write;

/// Writes each entry as `DESTINATION:HOPS:NEXT`, joined by commas, or `-` where there is none.
pub fn show<W: Write>(local: &RoutesLocal, out: &mut W) -> Result<(), WriteFault>
    ensures ok { OnOk result (Appends (W.contents out.old) (W.contents out.new) (routes_text local.now)) }
    ensures err { OnErr result (AppendsPrefix (W.contents out.old) (W.contents out.new) (routes_text local.now)) }
{
    put_list(out, local.entries())
}

impl ListItem for Entry {
    ghost text = { entry_text };

    fn put<W: Write>(&self, out: &mut W) -> Result<(), WriteFault> {
        put_parts(
            out,
            &[
                Part::Number(u64::from(self.destination)),
                Part::Text(b":"),
                Part::Number(u64::from(self.hops)),
                Part::Text(b":"),
                Part::Number(u64::from(self.next)),
            ],
        )
    }
}
