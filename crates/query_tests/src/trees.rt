//! Join trees of small graphs.
ghost use Rattle.std.specs.Prelude.{◌≤◌, ◌<◌, ◌^◌, IfOk};
ghost use Rattle.std.specs.List.{All};
ghost use Rattle.hyper_graph.specs.Graph.{Hypergraph};
ghost use Rattle.join_tree.specs.Removal.{IsRemoval};

use hyper_graph::Graph;
use join_tree::{Ears, JoinTree, ears, reroot, tree_of};
use std::alloc::Global;
use std::test::Fail;
use step_counter::NoMemory;

/// The ears of the graph of this many atoms with these sets, or a message for a test that fails.
fn ears_of(alloc: Global, atoms: u32, sets: &[u16]) -> Result<Ears, &'static str>
    requires some { 1 ≤ atoms }
    requires few { atoms ≤ 16 }
    requires within { All (λ set. set < 2 ^ atoms) sets.now }
    ensures { IfOk result
        (λ e. (graph : Hypergraph) × IsRemoval graph e.parent e.order e.removed e.core) }
{
    match Graph::new(alloc, atoms, sets) {
        Ok(graph) => Ok(ears(&graph)),
        Err(NoMemory) => Err("no memory"),
    }
}

/// Two relations that are joined: the second hangs below the first.
#[test]
fn chain_has_a_tree(rt: HostRuntime) -> Result<(), Fail> {
    let found = tree_of(&ears_of(rt.alloc(), 2, &[0b11])?).ok_or("no tree")?;
    assert!(rt; found.count == 2 && found.atom[0] == 0);
    assert!(rt; found.atom[1] == 1 && found.parent[1] == 0);
    Ok(())
}

/// No atom of a triangle is an ear, and none of a graph of five atoms.
#[test]
fn cycles_have_none(rt: HostRuntime) -> Result<(), Fail> {
    let triangle = ears_of(rt.alloc(), 3, &[0b101, 0b011, 0b110])?;
    assert!(rt; triangle.core == 0b111 && triangle.removed == 0);
    let five = ears_of(rt.alloc(), 5, &[0b01011, 0b00110, 0b10101, 0b11000])?;
    assert!(rt; five.core == 0b11111 && tree_of(&five).is_none());
    Ok(())
}

/// A path of three relations, with its last one as the root.
#[test]
fn reroots_a_path(rt: HostRuntime) -> Result<(), Fail> {
    let found = tree_of(&ears_of(rt.alloc(), 3, &[0b011, 0b110])?).ok_or("no tree")?;
    assert!(rt; found.count == 3);
    let last = found.atom[2];
    assert!(rt; last == 2);
    let other = reroot(&found, last);
    assert!(rt; other.atom[0] == 2 && other.atom[1] == 1 && other.atom[2] == 0);
    assert!(rt; other.parent[1] == 0 && other.parent[2] == 1);
    Ok(())
}

/// The atom that is reached from this one by going to the parent four times.
fn root_of(parents: &[u32; 4], atom: u32) -> u32 {
    let mut at = atom;
    for _ in 0..4 {
        at = parents[at as usize % 4];
    }
    at
}

/// Whether every atom reaches one root, which is its own parent.
fn is_tree(parents: &[u32; 4]) -> bool {
    let root = root_of(parents, 0);
    parents[root as usize % 4] == root
        && root_of(parents, 1) == root
        && root_of(parents, 2) == root
        && root_of(parents, 3) == root
}

fn is_in(set: u16, atom: u32) -> bool {
    set >> (atom % 4) & 1 == 1
}

/// Whether a set of atoms is empty or connected in this tree: then it has one link fewer than
/// atoms.
fn is_connected(parents: &[u32; 4], set: u16) -> bool {
    let mut atoms: u32 = 0;
    let mut links: u32 = 0;
    for atom in 0..4u32 {
        let parent = parents[atom as usize];
        if is_in(set, atom) {
            atoms = atoms.saturating_add(1);
        }
        if is_in(set, atom) && parent != atom && is_in(set, parent) {
            links = links.saturating_add(1);
        }
    }
    atoms <= links.saturating_add(1)
}

/// For each set of the four atoms, whether it is empty or connected in this tree.
fn connected_sets(parents: &[u32; 4]) -> [bool; 16] {
    let mut connected = [false; 16];
    for set in 0..16u16 {
        connected[set as usize] = is_connected(parents, set);
    }
    connected
}

/// The connected sets of each tree of four atoms. A number of four digits to the base 4 names the
/// parent of each atom.
fn all_trees(alloc: Global) -> Result<Vec<[bool; 16]>, NoMemory> {
    let mut trees = Vec::new(alloc);
    for number in 0..256u32 {
        let parents = [number % 4, number / 4 % 4, number / 16 % 4, number / 64];
        if is_tree(&parents) {
            trees.push(connected_sets(&parents))?;
        }
    }
    Ok(trees)
}

/// Whether all three sets are among the connected ones.
fn connects(connected: &[bool; 16], sets: [u16; 3]) -> bool {
    connected[sets[0] as usize % 16]
        && connected[sets[1] as usize % 16]
        && connected[sets[2] as usize % 16]
}

/// Whether the three sets are connected in one of the trees.
fn has_tree(trees: &[[bool; 16]], sets: [u16; 3]) -> bool {
    for connected in trees {
        if connects(connected, sets) {
            return true;
        }
    }
    false
}

/// The parent of each of the four atoms in a tree of them.
fn parents_of(tree: &JoinTree) -> [u32; 4] {
    let mut parents = [0; 4];
    for node in 0..4usize {
        parents[tree.atom[node] as usize % 4] = tree.atom[tree.parent[node] as usize % 16];
    }
    parents
}

/// Whether the tree of these variables is a join tree, or there is none and no tree is one.
fn is_right(
    alloc: Global,
    trees: &[[bool; 16]],
    x: u16,
    y: u16,
    z: u16,
) -> Result<bool, &'static str>
    requires x { x < 16 }
    requires y { y < 16 }
    requires z { z < 16 }
{
    let sets = [x, y, z];
    let Some(tree) = tree_of(&ears_of(alloc, 4, &sets)?) else {
        return Ok(!has_tree(trees, sets));
    };
    let parents = parents_of(&tree);
    Ok(is_tree(&parents) && connects(&connected_sets(&parents), sets))
}

/// For every graph of four atoms and three variables a tree is found exactly if some list of
/// parents is a join tree, and the tree found is one.
#[test]
fn finds_a_tree_where_one_is(rt: HostRuntime) -> Result<(), Fail> {
    let trees = all_trees(rt.alloc()).or(Err("no memory"))?;
    assert!(rt; trees.len() == 64);
    for x in 0..16u16 {
        for y in 0..16u16 {
            for z in 0..16u16 {
                assert!(rt; is_right(rt.alloc(), &trees, x, y, z)?, "at {x} {y} {z}");
            }
        }
    }
    Ok(())
}
