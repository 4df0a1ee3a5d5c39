//! The topology texts of the standard shapes.

ghost use Rattle.std.specs.Prelude.{◌≡◌, ◌<◌, ◌≤◌, IfOk, false, string_bytes, true};
ghost use Rattle.toml.specs.Data.{members_have_valid_dates};
ghost use Rattle.toml.specs.Text.{IsDocumentText};
ghost use Rattle.toml.specs.View.{table_view};
ghost use Rattle.topology.specs.TopologyText.{IsReadFault, description_of};
ghost use Rattle.topology.specs.declared.text.ReadFault.{ReadFault};
ghost use Rattle.network_shapes.specs.Shapes.{shape_description};
ghost use Rattle.topology.specs.TopologyTable.{description_text};

use crate::links::{node_numbers, shape_links};
use crate::shape::Shape;
use crate::table::description_table;
use std::alloc::{AllocError, Global};
use toml::Table;
use topology::AppName;

/// The topology text of a shape with the nodes 1 to `count`, from 1 to 1,024 of them. `seed` matters
/// to `Shape::Random` alone. The text names no modulus, so that it is read with the greatest. It has no
/// fault that `read_topology` could name, so that reading it fails only if an allocation fails.
pub fn shape_text(
    alloc: Global,
    shape: Shape,
    count: u32,
    seed: u32,
    app: AppName,
) -> Result<String, AllocError>
    requires some { 0 < count }
    requires few { count ≤ 1024 }
    ensures text { IfOk result (λ text. string_bytes text ≡ description_text (shape_description shape count seed app)) }
    ensures described { IfOk result
        (λ text. description_of (string_bytes text) ≡ Ok (shape_description shape count seed app)) }
    ensures accepted { IfOk result (λ text. (f : ReadFault) → IsReadFault (string_bytes text) f → ⊥) }
{
    let nodes = node_numbers(alloc, count)?;
    let links = shape_links(alloc, shape, count, seed)?;
    let table = description_table(alloc, &nodes, &links, app)?;
    printed(alloc, &table)
}

// A table with no date that isn't one, as a text.
fn printed(alloc: Global, table: &Table) -> Result<String, AllocError>
    requires { members_have_valid_dates (table_view table.now) ≡ true }
    ensures { IfOk result (λ text. IsDocumentText false (table_view table.now) (string_bytes text)) }
{
    match toml::table_to_string(alloc, table) {
        Ok(text) => Ok(text),
        Err(error) => {
            prove!(matches!(&error, toml::ser::Error::OutOfMemory));
            Err(AllocError)
        }
    }
}
