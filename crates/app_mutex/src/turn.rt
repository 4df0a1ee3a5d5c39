// Whose turn it is at a link.
ghost use Rattle.std.specs.Prelude.{◌≡◌};
ghost use Rattle.app_mutex.specs.Turns.{holds_turn};

/// Whether the node holds the turn of its link to the neighbour.
pub fn holds_turn(id: u32, bit: bool, near_id: u32, near_bit: bool) -> bool
    ensures { result ≡ holds_turn id bit near_id near_bit }
{
    if id < near_id {
        bit == near_bit
    } else {
        bit != near_bit
    }
}
