// What is wrong with the table of a topology's text: which key, and why.

ghost use Rattle.std.specs.Prelude.{◌≡◌, IfSome, Ok, Err, is_ok};
ghost use Rattle.toml.specs.View.{table_view, view};
ghost use Rattle.topology.specs.TopologyText.{is_known, numbers_of, pairs_of, value_at};
ghost use Rattle.topology.specs.declared.text.ReadFault.TheVariants.{MissingKey};

use action_tables::{MAX_MODULUS, MIN_MODULUS};
use toml::{Table, Value};

/// The keys that a topology has to have, in the order in which they are looked for.
pub const NEEDED: [&str; 3] = ["nodes", "links", "app"];

/// The first of the needed keys that a table lacks.
pub fn missing_key(table: &Table) -> Option<&'static str> {
    for key in NEEDED {
        if table.get(key).is_none() {
            return Some(key);
        }
    }
    None
}

/// The first key of a table that no topology has.
pub fn unknown_key(table: &Table) -> Option<&str> {
    for key in table.keys() {
        if !matches!(key.as_str(), "nodes" | "links" | "app" | "modulus") {
            return Some(key.as_str());
        }
    }
    None
}

/// What the first of the values should be that are of a wrong kind.
pub fn wrong_kind(table: &Table) -> Option<&'static str> {
    if !table.get("nodes").is_some_and(are_numbers) {
        return Some("'nodes' is a list of numbers from 0 to 4294967295");
    }
    if !table.get("links").is_some_and(are_pairs) {
        return Some("'links' is a list of pairs of numbers from 0 to 4294967295");
    }
    if !table.get("app").is_some_and(Value::is_str) {
        return Some("'app' is the name of an application, in quotes");
    }
    if !table.get("modulus").is_none_or(is_modulus) {
        return Some("'modulus' is a number from 2 to 4294967296");
    }
    None
}

fn are_numbers(value: &Value) -> bool {
    value
        .as_array()
        .is_some_and(|items| items.iter().all(is_number))
}

fn are_pairs(value: &Value) -> bool {
    value
        .as_array()
        .is_some_and(|items| items.iter().all(is_pair))
}

fn is_pair(value: &Value) -> bool {
    value
        .as_array()
        .is_some_and(|items| items.len() == 2 && items.iter().all(is_number))
}

fn is_number(value: &Value) -> bool {
    value
        .as_integer()
        .is_some_and(|number| u32::try_from(number).is_ok())
}

fn is_modulus(value: &Value) -> bool {
    match value.as_integer() {
        Some(number) => match u64::try_from(number) {
            Ok(modulus) => MIN_MODULUS <= modulus && modulus <= MAX_MODULUS,
            Err(_) => false,
        },
        None => false,
    }
}
