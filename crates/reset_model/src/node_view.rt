// What a node sees, as a value of its own.

ghost use Rattle.std.specs.Prelude.{◌≡◌, ◌↔◌, IfOk, IsTrue, length, option_map, slice_get};
ghost use Rattle.reset_model.specs.View.{near_trees};
ghost use Rattle.tree_layer.specs.TreeTable.{IsView};

use app_interface::Application;
use std::alloc::{AllocError, Global};
use std::marker::Model;
use tree_layer::TreeRegs;
use wave_layer::{Modulus, WaveRegs};

/// A neighbour, as a node sees it.
#[derive(Drop)]
pub struct Near<P: Application> {
    /// Its identifier.
    pub id: u32,
    /// Its tree registers.
    pub tree: TreeRegs,
    /// Its wave registers.
    pub wave: WaveRegs,
    /// Its local state.
    pub local: P::Local,
}

impl<P: Application> Model for Near<P> {
    ghost use Rattle.reset_model.specs.View.{Neighbour};

    ghost Value = { Neighbour P.Local };

    ghost view = { λ n. record { id = n.id; tree = n.tree; wave = n.wave; local = n.local } };
}

/// What a node sees: its identifier, the bound K and the modulus of the sessions, its own registers and
/// local state, its declared start state, and its neighbours, ascending.
#[derive(Drop)]
pub struct View<P: Application> {
    id: u32,
    k: u32,
    modulus: Modulus,
    tree: TreeRegs,
    wave: WaveRegs,
    local: P::Local,
    start: P::Local,
    near: Vec<Near<P>>,
}

impl<P: Application> Model for View<P> {
    ghost use Rattle.tree_layer.specs.TreeTable.{IsView};
    ghost use Rattle.reset_model.specs.View.{NodeView, near_trees};

    ghost Value = { NodeView P.Local };

    ghost view = { λ v. record {
      id = v.id;
      bound = v.k;
      modulus = v.modulus;
      tree = v.tree;
      wave = v.wave;
      local = v.local;
      start = v.start;
      near = v.near.items;
    } };

    // A node isn't among its neighbours, which ascend, and the bound isn't 0.
    ghost invariant = { λ v. IsView v.id v.k (near_trees v.near.items) };
}

impl<P: Application> View<P> {
    /// The view of the node that has this identifier, these registers and this local state, under this
    /// bound K and modulus, with this start state and these neighbours. The bound isn't 0, the neighbours ascend, and
    /// the node isn't among them.
    pub fn new(
        own: Near<P>,
        k: u32,
        modulus: Modulus,
        start: P::Local,
        near: Vec<Near<P>>,
    ) -> View<P>
        requires { IsView own.id k (near_trees near.items) }
        ensures { result ≡ record {
          id = own.id;
          bound = k;
          modulus = modulus;
          tree = own.tree;
          wave = own.wave;
          local = own.local;
          start = start;
          near = near.items;
        } }
    {
        View {
            id: own.id,
            k,
            modulus,
            tree: own.tree,
            wave: own.wave,
            local: own.local,
            start,
            near,
        }
    }

    /// The node's identifier.
    pub fn id(&self) -> u32
        ensures { result ≡ self.now.id }
    {
        self.id
    }

    /// The bound K of the distances.
    pub fn k(&self) -> u32
        ensures { result ≡ self.now.bound }
    {
        self.k
    }

    /// The number modulo which sessions are counted.
    pub fn modulus(&self) -> Modulus
        ensures { result ≡ self.now.modulus }
    {
        self.modulus
    }

    /// The node's tree registers.
    pub fn tree(&self) -> TreeRegs
        ensures { result ≡ self.now.tree }
    {
        self.tree
    }

    /// The node's wave registers.
    pub fn wave(&self) -> WaveRegs
        ensures { result ≡ self.now.wave }
    {
        self.wave
    }

    /// The node's local state.
    pub fn local(&self) -> &P::Local
        ensures { result.now ≡ self.now.local }
    {
        &self.local
    }

    /// The local state that the node restarts with.
    pub fn start(&self) -> &P::Local
        ensures { result.now ≡ self.now.start }
    {
        &self.start
    }

    /// How many neighbours the node has.
    pub fn near_len(&self) -> usize
        ensures { result ≡ length self.now.near }
    {
        let near = &self.near;
        near.len()
    }

    /// The neighbour with this number, counted from 0 in ascending order of the identifiers.
    pub fn near(&self, number: usize) -> Option<&Near<P>>
        ensures { option_map (λ near. near.now) result ≡ slice_get self.now.near number }
    {
        let near = &self.near;
        near.get(number)
    }

    /// The neighbours, which ascend, and among which the node isn't.
    pub fn neighbours(&self) -> &[Near<P>]
        ensures value { result.now ≡ self.now.near }
        ensures view { IsView self.now.id self.now.bound (near_trees self.now.near) }
    {
        &self.near
    }

    /// Its neighbours, in whose room the next view may be read.
    pub fn into_near(self) -> Vec<Near<P>>
        ensures { result.items ≡ self.near }
    {
        self.near
    }

    // A view that equals this one.
    pub(crate) fn copy(&self, alloc: Global) -> Result<View<P>, AllocError>
        ensures { IfOk result (λ copy. copy ≡ self.now) }
    {
        let local = P::copy(alloc, &self.local)?;
        let start = P::copy(alloc, &self.start)?;
        let near = copy_near::<P>(alloc, &self.near)?;
        Ok(View {
            id: self.id,
            k: self.k,
            modulus: self.modulus,
            tree: self.tree,
            wave: self.wave,
            local,
            start,
            near,
        })
    }

    /// Whether these are the bound and the modulus.
    pub fn has_limits(&self, k: u32, modulus: Modulus) -> bool
        ensures { IsTrue result ↔ (self.now.bound ≡ k) × (self.now.modulus ≡ modulus) }
    {
        k == self.k && self.modulus == modulus
    }

    /// Whether these are the node's registers.
    pub fn has_regs(&self, tree: TreeRegs, wave: WaveRegs) -> bool
        ensures { IsTrue result ↔ (self.now.tree ≡ tree) × (self.now.wave ≡ wave) }
    {
        tree == self.tree && wave == self.wave
    }

    /// Whether these are the node's local state and its start state.
    pub fn has_states(&self, local: &P::Local, start: &P::Local) -> bool
        ensures { IsTrue result ↔ (self.now.local ≡ local.now) × (self.now.start ≡ start.now) }
    {
        P::same(&self.local, local) && P::same(&self.start, start)
    }

    /// Whether the two are equal.
    pub fn same(&self, other: &View<P>) -> bool
        ensures { IsTrue result ↔ self.now ≡ other.now }
    {
        other.id == self.id
            && self.has_limits(other.k, other.modulus)
            && self.has_regs(other.tree, other.wave)
            && self.has_states(&other.local, &other.start)
            && same_near(&self.near, &other.near)
    }
}

// A copy of each neighbour.
fn copy_near<P: Application>(alloc: Global, near: &[Near<P>]) -> Result<Vec<Near<P>>, AllocError>
    ensures { IfOk result (λ copies. copies.items ≡ near.now) }
{
    let mut copies = Vec::new(alloc);
    for other in near {
        copies.push(other.copy(alloc)?)?;
    }
    Ok(copies)
}

// Whether the two lists of neighbours are equal.
fn same_near<P: Application>(a: &[Near<P>], b: &[Near<P>]) -> bool
    ensures { IsTrue result ↔ a.now ≡ b.now }
{
    if a.len() != b.len() {
        return false;
    }
    for index in 0..a.len() {
        if !a[index].same(&b[index]) {
            return false;
        }
    }
    true
}

impl<P: Application> Near<P> {
    // A neighbour that equals this one.
    fn copy(&self, alloc: Global) -> Result<Near<P>, AllocError>
        ensures { IfOk result (λ copy. copy ≡ self.now) }
    {
        Ok(Near {
            id: self.id,
            tree: self.tree,
            wave: self.wave,
            local: P::copy(alloc, &self.local)?,
        })
    }

    /// Whether these are its parts.
    pub fn is(&self, id: u32, tree: TreeRegs, wave: WaveRegs, local: &P::Local) -> bool
        ensures { IsTrue result ↔ self.now ≡ record { id = id; tree = tree; wave = wave; local = local.now } }
    {
        id == self.id && self.tree == tree && self.wave == wave && P::same(&self.local, local)
    }

    // Whether the two are equal.
    fn same(&self, other: &Near<P>) -> bool
        ensures { IsTrue result ↔ self.now ≡ other.now }
    {
        self.is(other.id, other.tree, other.wave, &other.local)
    }
}
