// The table of the tree agrees with a plain one, written apart, at the edges of the registers.

use tree_layer::{TreeRefusal, TreeRegs, TreeView, tree_enabled, tree_fire, tree_good};

const ID: u32 = 2;

const K: u32 = 3;

const EDGES: [u32; 7] = [0, 1, K - 1, K, 65535, 65536, u32::MAX];

// The registers of a neighbour that is looked for in the plain table.
fn regs_of(near: &[(u32, TreeRegs)], id: u32) -> Option<TreeRegs> {
    for (other, regs) in near {
        if *other == id {
            return Some(*regs);
        }
    }
    None
}

fn holds(case: u8, own: TreeRegs, up: Option<TreeRegs>, near: Option<TreeRegs>) -> bool {
    match (case, up, near) {
        (1, _, _) => own.root < ID,
        (2, _, _) => own.father == ID && (own.root != ID || own.dist != 0),
        (3, up, _) => own.father != ID && up.is_none(),
        (4, _, _) => own.dist >= K,
        (5, Some(up), _) => own.dist < K && own.root != up.root,
        (6, Some(up), _) => {
            own.dist < K && own.root == up.root && u64::from(own.dist) != u64::from(up.dist) + 1
        }
        (7, _, Some(near)) => near.dist < K && own.root < near.root,
        (8, _, Some(near)) => {
            near.dist < K && own.root == near.root && u64::from(near.dist) + 1 < u64::from(own.dist)
        }
        _ => false,
    }
}

fn moved(case: u8, own: TreeRegs, up: Option<TreeRegs>, from: Option<(u32, TreeRegs)>) -> TreeRegs {
    match (case, up, from) {
        (5 | 6, Some(up), _) => TreeRegs {
            root: up.root,
            father: own.father,
            dist: if up.dist < K { up.dist + 1 } else { K },
        },
        (7 | 8, _, Some((id, near))) => TreeRegs {
            root: near.root,
            father: id,
            dist: near.dist.saturating_add(1),
        },
        _ => TreeRegs {
            root: ID,
            father: ID,
            dist: 0,
        },
    }
}

fn plain(
    case: u8,
    own: TreeRegs,
    near: &[(u32, TreeRegs)],
    from: Option<u32>,
) -> Result<TreeRegs, TreeRefusal> {
    let up = regs_of(near, own.father);
    let named = match from {
        Some(id) => match regs_of(near, id) {
            Some(regs) => Some((id, regs)),
            None => None,
        },
        None => None,
    };
    if case == 0 || case > 8 {
        Err(TreeRefusal::NoSuchCase)
    } else if (case < 7 && from.is_some()) || (case >= 7 && named.is_none()) {
        Err(TreeRefusal::StrangeNeighbour)
    } else if holds(case, own, up, named.map(|(_, regs)| regs)) {
        Ok(moved(case, own, up, named))
    } else {
        Err(TreeRefusal::NotEnabled)
    }
}

// Whether each case, at each neighbour that may be named, does as in the plain table.
fn fires_alike(view: &TreeView, own: TreeRegs, near: &[(u32, TreeRegs)]) -> bool {
    for case in 0..10 {
        for from in [None, Some(1), Some(ID), Some(3), Some(u32::MAX)] {
            if tree_fire(view, case, from) != plain(case, own, near, from) {
                return false;
            }
        }
    }
    true
}

// Whether the rows are enabled that are in the plain table.
fn enabled_alike(view: &TreeView, own: TreeRegs, near: &[(u32, TreeRegs)]) -> bool {
    let enabled = tree_enabled(view);
    let mut good = true;
    for case in 1..9 {
        let mut holds = plain(case, own, near, None).is_ok();
        for (id, _) in near {
            holds = holds || plain(case, own, near, Some(*id)).is_ok();
        }
        good = good && !holds;
        if enabled.has(case) != holds {
            return false;
        }
    }
    tree_good(view) == good
}

fn agrees(own: TreeRegs, near: &[(u32, TreeRegs)]) -> bool {
    match TreeView::new(ID, K, own, near) {
        Some(view) => fires_alike(&view, own, near) && enabled_alike(&view, own, near),
        None => false,
    }
}

#[test]
fn agrees_with_a_plain_table(rt: HostRuntime) {
    let far = [(0, 0), (K - 1, 2), (u32::MAX, 65536)];
    for root in EDGES {
        for father in EDGES {
            for dist in EDGES {
                let own = TreeRegs { root, father, dist };
                for root in EDGES {
                    for dist in EDGES {
                        let one = TreeRegs { root, father, dist };
                        for (dist, root) in far {
                            let three = TreeRegs { root, father, dist };
                            assert!(rt;
                                agrees(own, &[(1, one), (3, three)]),
                                "{own:?} beside {one:?}"
                            );
                        }
                    }
                }
            }
        }
    }
}
