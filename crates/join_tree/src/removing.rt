//! Ear removal.

ghost use Rattle.std.specs.Prelude.{◌≡◌, ◌↔◌, ℕ, ◌+◌, ◌<◌, List, MatchOption};
ghost use Rattle.hyper_graph.specs.Ears.{CoversFirst, IsEar};
ghost use Rattle.hyper_graph.specs.Graph.{Hypergraph, HasVar, IsLiveIn};
ghost use Rattle.hyper_graph.specs.JoinTrees.{HasJoinTree};
ghost use Rattle.join_tree.specs.Removal.{HasOne, IsAnyRemoval, IsRemoval, IsStep};

use crate::outcome::Ears;
use hyper_graph::{Graph, all_below, contains, without};

/// The least atom that covers `ear`, if `ear` is a live ear.
fn parent_of(graph: &Graph, live: u16, ear: u32) -> Option<u32>
    requires within { ear < graph.now.atoms }
    requires few { ear < 16 }
    ensures { MatchOption result (IsEar (HasVar graph.now) (IsLiveIn graph.now live) ear → ⊥)
        (λ f. IsLiveIn graph.now live ear
        × CoversFirst (HasVar graph.now) (IsLiveIn graph.now live) ear f) }
{
    if contains(live, ear) {
        graph.is_ear(ear, live)
    } else {
        None
    }
}

/// The greatest ear, and the least atom that covers it.
fn greatest_ear(graph: &Graph, live: u16) -> Option<(u32, u32)>
    ensures { MatchOption result
        ((e : ℕ) → IsEar (HasVar graph.now) (IsLiveIn graph.now live) e → ⊥)
        (λ found. IsStep (HasVar graph.now) (IsLiveIn graph.now live) found.0 found.1) }
{
    for ear in (0..graph.atoms()).rev() {
        if let Some(parent) = parent_of(graph, live, ear) {
            return Some((ear, parent));
        }
    }
    None
}

/// Removes ears as long as there are two atoms and one of them is an ear: the greatest ear first,
/// each below the least atom that has the variables which it shares. One atom is left exactly if a
/// join tree exists, and no other order of removal would leave one if this one does not. Takes no
/// memory.
pub fn ears(graph: &Graph) -> Ears
    ensures removal { IsRemoval graph.now result.parent result.order result.removed result.core }
    ensures one { HasOne result.core ↔ HasJoinTree graph.now }
    ensures any_order { (order : List ℕ) (removed : ℕ) → IsAnyRemoval graph.now order removed
        → (removed + 1 ≡ graph.now.atoms) ↔ HasJoinTree graph.now }
{
    let mut ears = Ears {
        parent: [0; 16],
        order: [0; 16],
        removed: 0,
        core: all_below(graph.atoms()),
    };
    for _ in 1..graph.atoms() {
        let Some((ear, parent)) = greatest_ear(graph, ears.core) else {
            return ears;
        };
        ears.parent[ear as usize] = parent;
        ears.order[ears.removed as usize] = ear;
        ears.removed += 1;
        ears.core = without(ears.core, ear);
    }
    ears
}
