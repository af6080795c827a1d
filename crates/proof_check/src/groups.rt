//! The groups of bound lines, each found by its link.
ghost use Rattle.std.specs.Prelude.{◌≡◌, ◌≢◌, ◌≤◌, ◌<◌, ◌++◌, ◌∷◌, ℕ, List, [], length, replicate, slice_index, true, false, IfErr, IfOk};
ghost use Rattle.tdp_model.specs.NodeRows.{most_node_rows};
ghost use Rattle.anyk_model.specs.Table.{Table};
ghost use Rattle.anyk_model.specs.Query.{Query as SelectQuery};
ghost use Rattle.join_tree.specs.declared.tree.JoinTree.{JoinTree};
ghost use Rattle.tdp_core.specs.RawView.{raw_len};
ghost use Rattle.proof_model.specs.ProofView.{proof_view};
ghost use Rattle.proof_check.specs.BoundedRows.{HasProblemRows};
ghost use Rattle.proof_check.specs.Faults.{TellsBoundTwice};
ghost use Rattle.proof_check.specs.Lines.{AreLineGroups, ArePlacedLines, HasPlacedLines, group_link};

use hash_keys::Keys;
use link_index::HashedIndex;
use proof_model::{Proof, ProofFault};
use rank_key::Rank;
use std::alloc::{AllocError, Global};
use std::sync::ledger::Ledger;
use step_counter::{NoMemory, Steps};
use tdp_core::RawTree;

/// The link by which the group of a row of a node is found: the row's own link, and at the root 0,
/// since all rows of the root are in one group.
pub(crate) fn group_link<R: Rank>(raw: &RawTree<R>, node: u32, place: u32) -> u32
    requires node { node < length raw.now.shapes }
    requires place { place < raw_len raw.now node }
    ensures { result ≡ group_link raw.now node place }
{
    if node == 0 { 0 } else { raw.own(node, place) }
}

/// For each node no group.
fn no_groups(alloc: Global, nodes: u32, keys: Keys) -> Result<Vec<HashedIndex>, AllocError>
    ensures { IfOk result (λ groups. groups.items ≡ replicate nodes []) }
{
    let mut groups = Vec::new(alloc);
    for _node in 0..nodes {
        let none = HashedIndex::new(alloc, keys);
        groups.push(none)?;
    }
    Ok(groups)
}

/// Adds the group with this link after the others, unless it is there. Whether it was not there.
fn add_group<L: Ledger>(
    groups: &mut HashedIndex,
    link: u32,
    steps: &mut Steps<L>,
) -> Result<bool, NoMemory>
    requires { length groups.old ≤ most_node_rows }
    ensures added { IfOk result (λ new. new ≡ true → groups.new ≡ groups.old ++ link ∷ []) }
    ensures absent { IfOk result (λ new. new ≡ true
        → (b : ℕ) → b < length groups.old → slice_index groups.old b ≢ link) }
    ensures there { IfOk result (λ new. new ≡ false
        → (b : ℕ) × (b < length groups.old) × (slice_index groups.old b ≡ link)) }
{
    match groups.number_of(link, steps) {
        Some(_) => Ok(false),
        None => {
            groups.insert(link, steps)?;
            Ok(true)
        }
    }
}

/// For each node the groups of its lines, in the order of the lines. `BoundTwice` exactly if two
/// lines of a node have one group, with the first line that has one before it, and `NoMemory` if
/// memory is refused.
pub(crate) fn line_groups<R: Rank, L: Ledger>(
    alloc: Global,
    raw: &RawTree<R>,
    keys: Keys,
    proof: &Proof,
    tops: &[u32],
    steps: &mut Steps<L>,
) -> Result<Vec<HashedIndex>, ProofFault>
    requires lines { HasPlacedLines R.KEYS R.key raw.now (proof_view proof.now)
        (length proof.now.bounds.items) tops.now }
    ensures groups { IfOk result (λ groups.
        AreLineGroups raw.now (proof_view proof.now) tops.now
        (length proof.now.bounds.items) groups.items) }
    ensures fault { IfErr result
        (λ told. (query : SelectQuery) (tables : List Table) (join : JoinTree)
        (ranks : List (List R)) → HasProblemRows query tables join R.KEYS R.key raw.now
        → ArePlacedLines query tables join R.KEYS R.key raw.now (proof_view proof.now)
        (length proof.now.bounds.items) tops.now ranks
        → TellsBoundTwice query tables join (proof_view proof.now) told) }
{
    let mut groups = no_groups(alloc, raw.nodes(), keys)?;
    for (line, bound) in proof.bounds.iter().enumerate() {
        let node = bound.node - 1;
        let link = group_link(raw, node, tops[line]);
        match add_group(&mut groups[node as usize], link, steps) {
            Ok(true) => {}
            Ok(false) => return Err(ProofFault::BoundTwice(bound.line)),
            Err(_) => return Err(ProofFault::NoMemory),
        }
    }
    Ok(groups)
}
