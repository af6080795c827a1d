//! The laws of tree problems. Each function here is a law, which its clause states, and takes no
//! step.

ghost use Rattle.tdp_model.specs.Laws.{KeysAreOrdered, SomeTree, RankingExists, OneRanking, RootRanking, QueueBegins, QueueGoesOn};

/// Keys are a strict total order, which adding keeps.
pub fn keys_are_ordered()
    ensures { KeysAreOrdered }
{}

/// There is a tree to which the other laws apply.
pub fn some_tree()
    ensures { SomeTree }
{}

/// A tree has a ranking.
pub fn ranking_exists()
    ensures { RankingExists }
{}

/// A tree has at most one ranking.
pub fn one_ranking()
    ensures { OneRanking }
{}

/// The solutions by node and the subtree solutions of the root have the same ranking.
pub fn root_ranking()
    ensures { RootRanking }
{}

/// The first candidate holds every solution.
pub fn queue_begins()
    ensures { QueueBegins }
{}

/// Taking one answer removes the head of the ranking of what the queue holds.
pub fn queue_goes_on()
    ensures { QueueGoesOn }
{}
