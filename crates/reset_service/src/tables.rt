// The tables that the nodes act by.

ghost use Rattle.std.specs.Prelude.{◌≡◌, IfErr, OnOk, OnErr};
ghost use Rattle.std.specs.Io.KnownBytes.{Appends};
ghost use Rattle.std.specs.List.{flat_map};
ghost use Rattle.action_tables.specs.Written.{AppendsPrefix};
ghost use Rattle.script_replay.specs.Output.{Leaves};
ghost use Rattle.reset_service.specs.Tables.{Standpoint, tables_text, titled_rows_text};
ghost use Rattle.script_replay.specs.declared.status.Status.TheVariants.{Good};

use action_tables::{CaseRow, WriteFault, print_rows};
use script_replay::{RunStop, Status};
use std::io::Write;
use tree_layer::tree_rows;
use wave_layer::wave_rows;

// The title of a table, and the rows below it.
#[derive(Clone, Copy)]
struct TitledRows<'a>(&'a str, &'a [CaseRow<'a>]);

/// Prints the table of the tree and that of the wave, then those of the applications: the token,
/// neighbour exclusion and the routes, and then the tables of the applications' links in that order. Only a
/// failed write cuts it short.
pub fn print_tables<W: Write>(out: &mut W) -> Result<Status, RunStop>
    ensures leaves { (here : Standpoint)
        → Leaves (λ output. output ≡ (tables_text here, Good)) (W.contents out.old) (W.contents out.new) result }
    ensures stop { IfErr result (λ stop. stop ≡ RunStop.WriteFailed) }
{
    let tree = tree_rows();
    let wave = wave_rows();
    let token = app_token::app_rows();
    let mutex = app_mutex::app_rows();
    let routes = app_routes::app_rows();
    let token_links = app_token::link_rows();
    let mutex_links = app_mutex::link_rows();
    let routes_links = app_routes::link_rows();
    let tables = [
        TitledRows("tree", &tree),
        TitledRows("wave", &wave),
        TitledRows("token", &token),
        TitledRows("mutex", &mutex),
        TitledRows("routes", &routes),
        TitledRows("token-links", &token_links),
        TitledRows("mutex-links", &mutex_links),
        TitledRows("routes-links", &routes_links),
    ];
    print_all(&tables, out)?;
    Ok(Status::Good)
}

// Prints the tables one after the other.
fn print_all<W: Write>(tables: &[TitledRows<'_>], out: &mut W) -> Result<(), WriteFault>
    ensures ok { OnOk result
        (Appends (W.contents out.old) (W.contents out.new) (flat_map titled_rows_text tables.now)) }
    ensures err { OnErr result
        (AppendsPrefix (W.contents out.old) (W.contents out.new) (flat_map titled_rows_text tables.now)) }
{
    for TitledRows(title, rows) in tables {
        print_rows(title, rows, out)?;
    }
    Ok(())
}
