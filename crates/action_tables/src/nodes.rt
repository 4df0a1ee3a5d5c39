// Nodes by their ids, with their registers.

ghost use Rattle.std.specs.Prelude.{◌≡◌, ◌↔◌, IsTrue};
ghost use Rattle.std.specs.List.Sorted.{IsStrictlyIncreasing};
ghost use Rattle.action_tables.specs.Nodes.{ids_of, regs_of};

/// The registers of the node with this id, the first where there are several.
pub fn regs_of<R: Copy>(nodes: &[(u32, R)], id: u32) -> Option<R>
    ensures { result ≡ regs_of id nodes.now }
{
    for (other, regs) in nodes {
        if *other == id {
            return Some(*regs);
        }
    }
    None
}

/// Whether each node's id is below the next one's.
pub fn ids_ascend<R>(nodes: &[(u32, R)]) -> bool
    ensures { IsTrue result ↔ IsStrictlyIncreasing (ids_of nodes.now) }
{
    nodes.is_sorted_by(|one, next| one.0 < next.0)
}
