ghost use Rattle.std.specs.Prelude.{ℕ, ◌<◌, ◌≤◌};
ghost use Rattle.topology.specs.Faults.{IsTopologyOf};
ghost use Rattle.topology.specs.Graph.{Graph};
ghost use Rattle.network_shapes.specs.Shapes.{node_numbers, shape_links};
ghost use Rattle.network_shapes.specs.declared.shape.Shape.{Shape};

/// The nodes and links of each shape have a topology, so that its text has no fault.
pub fn shapes_are_topologies()
    ensures { (shape : Shape) (count seed : ℕ) → 0 < count → count ≤ 1024
        → (g : Graph) × IsTopologyOf (node_numbers count) (shape_links shape count seed) g }
{}
