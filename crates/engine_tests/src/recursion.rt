//! The answers of a small tree from the engine by recursion, and from the streams below it, over
//! two allocators.
ghost use Rattle.std.specs.Prelude.{◌≡◌, ◌<◌, length};
ghost use Rattle.tdp_core.specs.TreeView.{group_count};
ghost use Rattle.tdp_core.specs.WellFormed.{IsTieFreeTree};

use crate::answers::{gives_all, links_two};
use crate::small_tree::{ANSWERS, small_tree};
use anyk_rec::Rec;
use bumpalo::Bump;
use rank_key::SumRank;
use std::alloc::{Allocator, Global};
use std::marker::Brand;
use std::sync::ledger::{Blank, Ledger};
use step_counter::{NoMemory, Steps};
use suffix_streams::Streams;
use tdp_core::Tree;

/// What finds the answers.
#[derive(Clone, Copy)]
enum Finder {
    Engine,
    // Its answers are the solutions of the root.
    Streams,
}

/// Whether it finds the answers of the small tree, and no others.
fn finds_all<A: Allocator + Clone, L: Ledger>(
    finder: Finder,
    alloc: A,
    tree: &Tree<SumRank>,
    steps: &mut Steps<L>,
) -> Result<bool, NoMemory>
    requires tie_free { IsTieFreeTree tree.now }
    requires root { 0 < length tree.now }
    requires group { 0 < group_count tree.now 0 }
{
    match finder {
        Finder::Engine => gives_all(&mut Rec::new(alloc, tree, steps)?, ANSWERS, steps),
        Finder::Streams => links_two(&mut Streams::new(alloc, tree, steps)?, ANSWERS, steps),
    }
}

/// The same, over this allocator, in a tree that is made for it.
fn finds_over<A: Allocator + Clone, L: Ledger>(
    finder: Finder,
    alloc: A,
    global: Global,
    steps: &mut Steps<L>,
) -> Result<bool, NoMemory> {
    let tree = small_tree(global, steps)?;
    finds_all(finder, alloc, &tree, steps)
}

fn finds_in_arena<L: Ledger>(
    finder: Finder,
    global: Global,
    steps: &mut Steps<L>,
) -> Result<bool, NoMemory> {
    let arena = Bump::new(global);
    finds_over(finder, &arena, global, steps)
}

/// The same, over the global allocator and over an arena.
fn finds_twice<L: Ledger>(finder: Finder, alloc: Global, blank: Blank) -> Result<bool, NoMemory>
    requires name { blank.name ≡ L.name }
    requires parts { blank.parts ≡ L.parts }
    requires share { 0 < L.parts }
{
    let mut steps: Steps<L> = Steps::new(blank);
    Ok(finds_over(finder, alloc, alloc, &mut steps)? && finds_in_arena(finder, alloc, &mut steps)?)
}

#[test]
fn a_small_tree_gives_its_answers(rt: HostRuntime) {
    assert!(rt; finds_twice::<Brand>(Finder::Engine, rt.alloc(), Blank::new(1)) == Ok(true));
}

#[test]
fn a_small_tree_gives_its_solutions(rt: HostRuntime) {
    assert!(rt; finds_twice::<Brand>(Finder::Streams, rt.alloc(), Blank::new(1)) == Ok(true));
}
