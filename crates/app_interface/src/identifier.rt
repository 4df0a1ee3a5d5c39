// Identifiers, as numbers and as texts.
ghost use Rattle.std.specs.Prelude.{◌≡◌, ℕ, IfNone, IfSome};
ghost use Rattle.std.specs.Fmt.{decimal};
ghost use Rattle.topology.specs.Id.{IsId};
ghost use Rattle.app_interface.specs.Ids.{is_id};
ghost use Rattle.app_interface.specs.Views.{named_id};

use action_tables::read_number;
use topology::NodeId;

/// Whether an identifier has this number.
pub fn is_id(number: u32) -> bool
    ensures { result ≡ is_id number }
{
    NodeId::new(number).is_some()
}

/// The neighbour that is named, where its number is an identifier.
pub fn named_id(with: Option<u32>) -> Option<u32>
    ensures value { result ≡ named_id with }
    ensures id { IfSome result IsId }
{
    match with {
        Some(number) if is_id(number) => Some(number),
        _ => None,
    }
}

/// The identifier that a text spells: a number from 1 to 65535 in decimal digits, without leading zeros.
pub fn read_id(text: &[u8]) -> Option<NodeId>
    ensures found { IfSome result (λ id. text.now ≡ decimal id) }
    ensures id { IfSome result IsId }
    ensures only { IfNone result ((id : ℕ) → IsId id → text.now ≡ decimal id → ⊥) }
{
    NodeId::new(read_number(text)?)
}
