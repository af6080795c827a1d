//! The number of the answers.
ghost use Rattle.std.specs.Prelude.{◌↔◌, IsTrue, List};
ghost use Rattle.anyk_model.specs.Table.{Table};
ghost use Rattle.anyk_model.specs.Query.{Query as SelectQuery};
ghost use Rattle.join_tree.specs.declared.tree.JoinTree.{JoinTree};
ghost use Rattle.proof_model.specs.Certificate.{Certificate};
ghost use Rattle.proof_model.specs.QueryProblem.{problem_in};
ghost use Rattle.proof_model.specs.Valid.{IsCount};

/// Whether there are as many answers as the limit, or, if the certificate says `end`, no more than
/// it.
pub(crate) fn is_count(limit: Option<u64>, ended: bool, count: u64) -> bool
    ensures { (query : SelectQuery) (tables : List Table) (join : JoinTree) (c : Certificate)
        → IsTrue result ↔ IsCount (problem_in query tables join) c limit ended count }
{
    match limit {
        None => ended,
        Some(most) => { if ended { count <= most } else { count == most } }
    }
}
