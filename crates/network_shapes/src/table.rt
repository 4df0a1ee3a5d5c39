// The TOML tables of descriptions.

ghost use Rattle.std.specs.Prelude.{◌≡◌, IfOk};
ghost use Rattle.toml.specs.Data.{string};
ghost use Rattle.toml.specs.View.{table_view, view};
ghost use Rattle.topology.specs.TopologyTable.{app_word, array_data, description_members, link_data, number_data};
ghost use Rattle.action_tables.specs.Modulus.{max_modulus};

use std::alloc::{AllocError, Global};
use toml::{Table, Value};
use topology::AppName;

/// The table with the nodes, the links and the name of the application. It names no modulus.
pub(crate) fn description_table(
    alloc: Global,
    nodes: &[u32],
    links: &[(u32, u32)],
    app: AppName,
) -> Result<Table, AllocError>
    ensures { IfOk result (λ table. table_view table
        ≡ description_members (record { nodes = nodes.now; links = links.now; app = app; modulus = max_modulus })) }
{
    let mut table = Table::new(alloc);
    table.insert(String::from_str(alloc, "app")?, app_value(alloc, app)?)?;
    table.insert(
        String::from_str(alloc, "links")?,
        links_value(alloc, links)?,
    )?;
    table.insert(
        String::from_str(alloc, "nodes")?,
        nodes_value(alloc, nodes)?,
    )?;
    Ok(table)
}

// The application's name.
fn app_value(alloc: Global, app: AppName) -> Result<Value, AllocError>
    ensures { IfOk result (λ value. view value ≡ string (app_word app)) }
{
    let word = match app {
        AppName::Idle => "idle",
        AppName::Token => "token",
        AppName::Mutex => "mutex",
        AppName::Routes => "routes",
    };
    Value::string(alloc, word)
}

// An array of the links.
fn links_value(alloc: Global, links: &[(u32, u32)]) -> Result<Value, AllocError>
    ensures { IfOk result (λ value. view value ≡ array_data link_data links.now) }
{
    let mut values = Vec::new(alloc);
    for link in links {
        values.push(link_value(alloc, *link)?)?;
    }
    Ok(Value::Array(values))
}

// An array of the two ends.
fn link_value(alloc: Global, link: (u32, u32)) -> Result<Value, AllocError>
    ensures { IfOk result (λ value. view value ≡ link_data link) }
{
    let (from, to) = link;
    let mut ends = Vec::new(alloc);
    ends.push(Value::from(from))?;
    ends.push(Value::from(to))?;
    Ok(Value::Array(ends))
}

// An array of the nodes.
fn nodes_value(alloc: Global, nodes: &[u32]) -> Result<Value, AllocError>
    ensures { IfOk result (λ value. view value ≡ array_data number_data nodes.now) }
{
    let mut values = Vec::new(alloc);
    for node in nodes {
        values.push(Value::from(*node))?;
    }
    Ok(Value::Array(values))
}
