//! Graphs: ears, shared variables and connected variables.

ghost use Rattle.std.specs.Prelude.{◌≡◌, ◌≢◌, ◌↔◌, ℕ, ◌^◌, ◌<◌, ◌≤◌, length, IfOk, MatchOption, IsTrue};
ghost use Rattle.std.specs.List.{All};
ghost use Rattle.hyper_graph.specs.Graph.{Hypergraph, HasVar, IsIn, IsLiveIn};
ghost use Rattle.hyper_graph.specs.Ears.{Covers, CoversFirst};
ghost use Rattle.hyper_graph.specs.Trees.{ParentsFirst, IsConnected};

use crate::atom_set::{contains, intersects, least, without};
use std::alloc::Global;
use std::marker::Model;
use step_counter::NoMemory;

/// The atoms of a query, numbered from 0, and for each variable the set of the atoms that have it.
#[derive(Drop)]
pub struct Graph {
    atom_count: u32,
    sets: Vec<u16>,
}

impl Model for Graph {
    ghost use Rattle.hyper_graph.specs.Graph.{Hypergraph, IsGraph};

    ghost Value = { Hypergraph };

    ghost view = { λ g. record { atoms = g.atom_count; vars = g.sets.items } };

    ghost invariant = { λ g. IsGraph (record { atoms = g.atom_count; vars = g.sets.items }) };
}

/// Whether `f` has the variable of this set, if `a` shares it with one of the others; true if it
/// does not.
fn keeps(set: u16, others: u16, a: u32, f: u32) -> bool
    requires a_in { a < 16 }
    requires f_in { f < 16 }
    ensures { IsTrue result ↔ ((h : ℕ) → IsIn others h → IsIn set a → IsIn set h → IsIn set f) }
{
    contains(set, f) || !contains(set, a) || !intersects(set, others)
}

/// Whether each atom of the set but the first has its parent in the set.
fn is_connected(set: u16, parents: &[u32]) -> bool
    requires few { length parents.now ≤ 16 }
    requires first { ParentsFirst parents.now }
    ensures { IsTrue result ↔ IsConnected parents.now (IsIn set) }
{
    let top = least(set);
    for k in 0..parents.len() {
        let atom = k as u32;
        if atom > top && contains(set, atom) && !contains(set, parents[k]) {
            return false;
        }
    }
    true
}

impl Graph {
    /// A graph of 1 to 16 atoms. For each variable, `vars` has the set of the atoms that have it;
    /// atom 0 is the lowest bit. `NoMemory` if memory is refused, and no other error.
    pub fn new(alloc: Global, atoms: u32, vars: &[u16]) -> Result<Graph, NoMemory>
        requires some { 1 ≤ atoms }
        requires few { atoms ≤ 16 }
        requires within { All (λ set. set < 2 ^ atoms) vars.now }
        ensures { IfOk result (λ graph. graph ≡ record { atoms = atoms; vars = vars.now }) }
    {
        let sets = vars.iter().copied().collect(alloc)?;
        Ok(Graph {
            atom_count: atoms,
            sets,
        })
    }

    /// The number of atoms.
    pub fn atoms(&self) -> u32
        ensures count { result ≡ self.now.atoms }
        ensures some { 1 ≤ result }
        ensures few { result ≤ 16 }
    {
        self.atom_count
    }

    /// For each variable the set of the atoms that have it; atom 0 is the lowest bit.
    pub fn vars(&self) -> &[u16]
        ensures { result.now ≡ self.now.vars }
    {
        &self.sets
    }

    /// Whether the two atoms have a variable in common.
    pub fn shared(&self, a: u32, b: u32) -> bool
        requires a_in { a < self.now.atoms }
        requires b_in { b < self.now.atoms }
        ensures { IsTrue result ↔ ((v : ℕ) × HasVar self.now v a × HasVar self.now v b) }
    {
        for &set in &self.sets {
            if contains(set, a) && contains(set, b) {
                return true;
            }
        }
        false
    }

    /// The least other live atom that has every variable which the live atom `a` shares with any
    /// other live atom. `None` exactly if there is none, that is, if `a` is not an ear. Bits of
    /// `live` beyond the atoms are ignored.
    pub fn is_ear(&self, a: u32, live: u16) -> Option<u32>
        requires { IsLiveIn self.now live a }
        ensures { MatchOption result
            ((f : ℕ) → Covers (HasVar self.now) (IsLiveIn self.now live) a f → ⊥)
            (λ f. CoversFirst (HasVar self.now) (IsLiveIn self.now live) a f) }
    {
        for f in 0..self.atom_count {
            if self.covers(live, a, f) {
                return Some(f);
            }
        }
        None
    }

    /// Whether `f` is another live atom that has every variable which `a` shares with the others.
    fn covers(&self, live: u16, a: u32, f: u32) -> bool
        requires a_in { a < self.now.atoms }
        requires f_in { f < self.now.atoms }
        ensures { IsTrue result ↔ Covers (HasVar self.now) (IsLiveIn self.now live) a f }
    {
        let sets = &self.sets;
        if f == a || !contains(live, f) {
            return false;
        }
        let others = without(live, a);
        for &set in sets {
            if !keeps(set, others, a, f) {
                return false;
            }
        }
        true
    }

    /// Whether every atom on the path between two atoms of a variable has it too, in a tree over
    /// the atoms. In `parents` each atom is after its parent.
    pub fn connected(&self, var: u32, parents: &[u32]) -> bool
        requires var_in { var < length self.now.vars }
        requires each { length parents.now ≡ self.now.atoms }
        requires first { ParentsFirst parents.now }
        ensures { IsTrue result ↔ IsConnected parents.now (HasVar self.now var) }
    {
        is_connected(self.sets[var as usize], parents)
    }
}
