// What an action sees.
ghost use Rattle.std.specs.Prelude.{◌≡◌, option_map};
ghost use Rattle.app_interface.specs.Views.{seen_at, seen_values};

/// The node that acts: its identifier, and the bound K on distances, which is at least the number of nodes.
#[derive(Clone, Copy, Debug, PartialEq, Eq)]
pub struct Here {
    pub id: u32,
    pub k: u32,
}

/// A neighbour that is read: its identifier and its local state.
#[derive(Drop)]
pub struct Seen<'a, L> {
    pub id: u32,
    pub local: &'a L,
}

/// What is seen of the neighbour, the first where it is named several times.
pub fn seen_at<'a, L>(j: u32, seen: &[Seen<'a, L>]) -> Option<&'a L>
    ensures { option_map (λ local. local.now) result ≡ seen_at j (seen_values seen.now) }
{
    for near in seen {
        if near.id == j {
            return Some(near.local);
        }
    }
    None
}
