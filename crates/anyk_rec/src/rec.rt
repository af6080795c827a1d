//! The engine by recursion: `next` asks the root's stream for its next member.
ghost use Rattle.std.specs.Prelude.{◌≡◌, ℕ, ◌+◌, ◌*◌, ◌^◌, ◌<◌, ◌≤◌, List, [], ◌∷◌, length, IfOk, IfSome, IfNone, OnErr};
ghost use Rattle.rank_key.specs.Bits.{bit_length};
ghost use Rattle.tdp_model.specs.KeyTuple.{KeyOf};
ghost use Rattle.tdp_model.specs.KeyNumbers.{numbers};
ghost use Rattle.tdp_core.specs.AnswerView.{answers_of, counted};
ghost use Rattle.tdp_core.specs.Shares.{size_of, share_of};
ghost use Rattle.tdp_core.specs.RisingShares.{shares_rise, at_most_itself};
ghost use Rattle.tdp_core.specs.TreeView.{group_count, row_count};
ghost use Rattle.tdp_core.specs.WellFormed.{IsTieFreeTree};
ghost use Rattle.tdp_core.specs.Solutions.{IsTreeRanking};
ghost use Rattle.suffix_streams.specs.Rankings.{group_list};
ghost use Rattle.suffix_streams.specs.StreamsView.{entry_place, size_of_node, AreKept, IsEntry};
ghost use Rattle.anyk_rec.specs.RecView.{rest_of, IsRootEntry, given_of};

use rank_key::Rank;
use std::alloc::Allocator;
use std::marker::Model;
use std::sync::ledger::Ledger;
use step_counter::{NoMemory, Steps};
use stream_store::EntryId;
use suffix_streams::Streams;
use tdp_core::{Answer, Ranked, Tree};

/// The answers of a tree in order of rank: the members of the root's stream that were not given
/// yet.
///
/// Each call of `next` takes at most 24 * m * (1 + b) steps, where m is the number of nodes, N the
/// number of rows of all nodes, and b the number of binary digits of N + (calls + 1) * m. Over a
/// tree without a solution it takes none. If a call is refused memory no answer is lost, though
/// streams may have grown.
#[derive(Drop)]
pub struct Rec<'t, R: Rank, A: Allocator + Clone> {
    streams: Streams<'t, R, A>,
    live: bool,
    last: Option<EntryId>,
    calls: u64,
}

impl<'t, R: Rank, A: Allocator + Clone> Model for Rec<'t, R, A> {
    ghost use Rattle.anyk_rec.specs.RecView.{RecView, IsRec, given_of};

    ghost Value = { RecView R };

    ghost view = { λ r. record
        { streams = r.streams; given = given_of r.streams r.last; calls = r.calls } };

    ghost invariant = { λ r. IsRec R.KEYS R.key r.streams r.live r.last r.calls };
}

impl<'t, R: Rank, A: Allocator + Clone> Rec<'t, R, A> {
    /// Creates the engine over this tree, before its first answer. It takes at most 16 * m * (1 +
    /// N) steps for m nodes with N rows in all, and returns `NoMemory` if memory is refused.
    pub fn new<L: Ledger>(
        alloc: A,
        tree: &'t Tree<R>,
        steps: &mut Steps<L>,
    ) -> Result<Rec<'t, R, A>, NoMemory>
        requires { IsTieFreeTree tree.now }
        ensures ranking { IfOk result
            (λ r. (ks : List (KeyOf R.KEYS 16)) × IsTreeRanking tree.now R.KEYS R.key ks
            × (rest_of R.KEYS R.key r ≡ answers_of R.KEYS ks)) }
        ensures tree { IfOk result (λ r. r.streams.tree ≡ tree.now) }
        ensures given { IfOk result (λ r. r.given ≡ 0) }
        ensures calls { IfOk result (λ r. r.calls ≡ 0) }
        ensures cost { steps.new ≤ steps.old + 16 * length tree.now * (1 + row_count tree.now) }
    {
        let live = tree.live();
        let streams = Streams::new(alloc, tree, steps)?;
        Ok(Rec {
            streams,
            live,
            last: None,
            calls: 0,
        })
    }
}

/// The entry of the root's stream after `last`, or its head before the first answer. `None` if
/// `last` is the end.
fn following<'t, R: Rank, A: Allocator + Clone, L: Ledger>(
    streams: &mut Streams<'t, R, A>,
    last: Option<EntryId>,
    steps: &mut Steps<L>,
) -> Result<Option<EntryId>, NoMemory>
    requires root { 0 < length streams.old.tree }
    requires live { 0 < group_count streams.old.tree 0 }
    requires last { IfSome last (IsRootEntry streams.old) }
    ensures tree { streams.new.tree ≡ streams.old.tree }
    ensures kept { AreKept streams.old streams.new }
    ensures entry { IfOk result (λ o. IfSome o (IsRootEntry streams.new)) }
    ensures place { IfOk result
        (λ o. IfSome o (λ e. (entry_place streams.new e ≡ given_of streams.old last)
        × (entry_place streams.new e < length (group_list R.KEYS R.key streams.old.tree 0 0)))) }
    ensures end { IfOk result
        (λ o. IfNone o (length (group_list R.KEYS R.key streams.old.tree 0 0)
        ≡ given_of streams.old last)) }
    ensures growth { (q : ℕ) → size_of_node streams.new q ≤ size_of_node streams.old q + 1 }
    ensures calls { (k : ℕ) → streams.old.calls ≤ k → k < 2 ^ 64 → streams.new.calls ≤ counted k }
    ensures cost { steps.new
        ≤ steps.old + 20 * length streams.old.tree
        * (1 + bit_length (row_count streams.old.tree
        + (streams.old.calls + 1) * length streams.old.tree)) }
{
    match last {
        Some(last) => streams.after(last, steps),
        None => Ok(Some(streams.head(0, 0))),
    }
}

impl<'t, R: Rank, A: Allocator + Clone> Ranked for Rec<'t, R, A> {
    type Key = R;

    ghost rest = { λ r. rest_of R.KEYS R.key r };

    ghost calls = { λ r. r.calls };

    ghost due = { λ r. share_of (size_of r.streams.tree) r.calls };

    ghost size = { λ r. size_of r.streams.tree };

    ghost share = { share_of };

    ghost share_rises = { shares_rise };

    ghost due_within = { λ r. at_most_itself (share_of (size_of r.streams.tree) r.calls) };

    fn next<L: Ledger>(&mut self, steps: &mut Steps<L>) -> Result<Option<Answer<R>>, NoMemory>
        ensures found { IfOk result
            (λ o. IfSome o (λ a. rest_of R.KEYS R.key self.old
            ≡ record { rows = a.rows; key = numbers R.KEYS 16 (R.key a.rank) }
            ∷ rest_of R.KEYS R.key self.new)) }
        ensures end { IfOk result
            (λ o. IfNone o ((rest_of R.KEYS R.key self.old ≡ [])
            × (rest_of R.KEYS R.key self.new ≡ []))) }
        ensures refused { OnErr result
            (rest_of R.KEYS R.key self.new ≡ rest_of R.KEYS R.key self.old) }
        ensures counted { self.new.calls ≡ counted self.old.calls }
        ensures size { size_of self.new.streams.tree ≡ size_of self.old.streams.tree }
        ensures cost { steps.new
            ≤ steps.old + share_of (size_of self.old.streams.tree) self.old.calls }
        ensures forward { self.old.given ≤ self.new.given }
        ensures moved { self.new.given ≤ self.old.given + 1 }
        ensures growth { (q : ℕ)
            → size_of_node self.new.streams q ≤ size_of_node self.old.streams q + 1 }
    {
        self.calls = self.calls.saturating_add(1);
        if !self.live {
            return Ok(None);
        }
        let Some(entry) = following(&mut self.streams, self.last, steps)? else {
            return Ok(None);
        };
        self.last = Some(entry);
        Ok(Some(Answer {
            rows: self.streams.rows_of(entry, steps),
            rank: self.streams.rank_of(entry, steps),
        }))
    }
}
