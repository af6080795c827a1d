//! The engine by regions: `next` takes the best candidate, divides its region and returns the
//! answer.
ghost use Rattle.std.specs.Prelude.{◌≡◌, ℕ, ◌+◌, ◌-◌, ◌*◌, ◌<◌, ◌≤◌, List, [], length, IfOk};
ghost use Rattle.stream_store.specs.declared.linked.Linked.{Linked};
ghost use Rattle.std.specs.List.{All};
ghost use Rattle.tdp_model.specs.KeyTuple.{KeyOf};
ghost use Rattle.tdp_core.specs.TreeView.{group_count, row_count};
ghost use Rattle.tdp_core.specs.WellFormed.{IsTieFreeTree};
ghost use Rattle.tdp_core.specs.Solutions.{IsTreeRanking};
ghost use Rattle.tdp_core.specs.AnswerView.{answers_of};
ghost use Rattle.tdp_core.specs.Shares.{most_steps, share_of, size_of};
ghost use Rattle.tdp_core.specs.RisingShares.{shares_rise, at_most_itself};
ghost use Rattle.anyk_part.specs.Regions.{rest_of, rest_keys, regions_of, IsPart};
ghost use Rattle.anyk_part.specs.Candidates.{HoldTheRest, HasLeastRank};

use crate::candidate::{Candidate, Descent, Link};
use crate::frontier::Frontier;
use crate::paths::{child_places, row_numbers};
use rank_key::Rank;
use std::alloc::Allocator;
use std::marker::Model;
use std::sync::ledger::Ledger;
use step_counter::{NoMemory, Steps};
use stream_store::Store;
use take2_heap::HeapOf;
use tdp_core::{Answer, Ranked, Tree};

/// The answers of a tree in order of rank. Contracts see the tree, the candidates in heap order and
/// the number of calls so far.
///
/// A candidate is a region of the answers that are left, with the least of their ranks. Each call
/// of `next` takes at most 24 * m * (1 + b) steps, where m is the number of nodes, N the number of
/// rows of all nodes, and b the number of binary digits of N + (calls + 1) * m. Over a tree without
/// a solution it takes none. If a call is refused memory, the answers are as they were.
#[derive(Drop)]
pub struct Part<'t, R: Rank, A: Allocator + Clone> {
    tree: &'t Tree<R>,
    /// The place of each node among the children of its parent.
    places: [u32; 16],
    frontier: Frontier<R, A>,
    calls: u64,
}

impl<'t, R: Rank, A: Allocator + Clone> Model for Part<'t, R, A> {
    ghost use Rattle.std.specs.Prelude.{length};
    ghost use Rattle.anyk_part.specs.Places.{ArePlaces};
    ghost use Rattle.anyk_part.specs.Regions.{PartView, candidates_of, IsPart};

    ghost Value = { PartView R };

    ghost view = { λ s. record {
      tree = s.tree.now;
      candidates = candidates_of s.frontier.links.entries
          (length s.tree.now) s.frontier.queue.entries;
      calls = s.calls;
    } };

    ghost invariant = { λ s. IsPart R.KEYS R.key s.tree.now s.frontier.links.entries
        s.frontier.queue.entries s.calls × ArePlaces s.tree.now s.places };
}

/// The queue with one candidate that holds every solution; empty if the tree has none.
fn first_queue<R: Rank, A: Allocator, L: Ledger>(
    alloc: A,
    tree: &Tree<R>,
    steps: &mut Steps<L>,
) -> Result<HeapOf<R, Candidate, A>, NoMemory>
    requires tie_free { IsTieFreeTree tree.now }
    ensures part { IfOk result
        (λ q. (links : List (Linked Link)) → IsPart R.KEYS R.key tree.now links q.entries 0
        × IsTreeRanking tree.now R.KEYS R.key
        (rest_keys R.KEYS R.key tree.now (regions_of links (length tree.now) q.entries))) }
    ensures cost { steps.new ≤ steps.old + 3 * length tree.now }
{
    let mut queue = HeapOf::new(alloc);
    if !tree.live() {
        return Ok(queue);
    }
    queue.reserve(1)?;
    let row = tree.member(0, 0, 0, steps);
    let best = tree.best(0, row, steps);
    let whole = Candidate::new(0, 0, None);
    queue.push_reserved(best, whole, steps);
    Ok(queue)
}

impl<'t, R: Rank, A: Allocator + Clone> Part<'t, R, A> {
    /// Creates the engine over this tree, before its first answer. It takes at most 16 * m * (1 +
    /// N) steps for m nodes with N rows in all, and returns `NoMemory` if memory is refused.
    pub fn new<L: Ledger>(
        alloc: A,
        tree: &'t Tree<R>,
        steps: &mut Steps<L>,
    ) -> Result<Part<'t, R, A>, NoMemory>
        requires tie_free { IsTieFreeTree tree.now }
        ensures tree { IfOk result (λ p. p.tree ≡ tree.now) }
        ensures calls { IfOk result (λ p. p.calls ≡ 0) }
        ensures ranking { IfOk result
            (λ p. (ks : List (KeyOf R.KEYS 16)) × IsTreeRanking tree.now R.KEYS R.key ks
            × (rest_of R.KEYS R.key p.tree p.candidates ≡ answers_of R.KEYS ks)) }
        ensures cost { steps.new ≤ steps.old + 16 * (length tree.now * (1 + row_count tree.now)) }
    {
        let links = Store::new(alloc.clone()?);
        let queue = first_queue(alloc, tree, steps)?;
        Ok(Part {
            tree,
            places: child_places(tree),
            frontier: Frontier { queue, links },
            calls: 0,
        })
    }

    /// The number of candidates. They are regions that share no answer and together hold exactly
    /// the answers that are left, each with the least rank of its region.
    pub fn candidates(&self) -> usize
        ensures count { result ≡ length self.now.candidates }
        ensures left { HoldTheRest R.KEYS R.key self.now.tree self.now.candidates }
        ensures ranks { All (HasLeastRank R.KEYS R.key self.now.tree) self.now.candidates }
    {
        self.frontier.queue.len()
    }
}

impl<'t, R: Rank, A: Allocator + Clone> Ranked for Part<'t, R, A> {
    type Key = R;

    ghost rest = { λ s. rest_of R.KEYS R.key s.tree s.candidates };

    ghost calls = { λ s. s.calls };

    ghost due = { λ s. most_steps (length s.tree) (row_count s.tree)
        (group_count s.tree 0) s.calls };

    ghost size = { λ s. size_of s.tree };

    ghost share = { share_of };

    ghost share_rises = { shares_rise };

    ghost due_within = { λ e. at_most_itself
        (most_steps (length e.tree) (row_count e.tree) (group_count e.tree 0) e.calls) };

    fn next<L: Ledger>(&mut self, steps: &mut Steps<L>) -> Result<Option<Answer<R>>, NoMemory> {
        self.calls = self.calls.saturating_add(1);
        let Some((rank, start)) = self.frontier.start() else {
            return Ok(None);
        };
        self.frontier.make_room(self.tree.nodes())?;
        let mut chosen = self.frontier.prefix(start.node, start.before, steps);
        self.frontier
            .divide(self.tree, &self.places, &rank, start, &mut chosen, steps);
        let rows = row_numbers(self.tree, &chosen, steps);
        Ok(Some(Answer { rows, rank }))
    }
}
