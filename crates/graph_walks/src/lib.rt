//! Walks over a directed graph whose nodes are numbers, given by what follows each one: the plain
//! meaning of "reaches", and a test of it by walks of bounded length. A session's readiness, the
//! groups of a unit's blocks and the closure of a static link are all spoken of with these words.
//!
//! There is no code here, only definitions (`specs/`) and their laws, each the contract of a public
//! function with an empty body. Read `session_model` next.
#![tactic(auto)]

ghost use Rattle.graph_walks.specs.Laws.{WalksSuffice, ClosedHoldsReached, ReachIsTransitive};

/// Walks with as many steps as there are numbers that lead anywhere find all that is reached.
pub fn walks_suffice()
    ensures { WalksSuffice }
{}

/// A set closed under what follows holds all that its members reach.
pub fn closed_holds_reached()
    ensures { ClosedHoldsReached }
{}

/// What is reached in two stretches is reached.
pub fn reach_is_transitive()
    ensures { ReachIsTransitive }
{}
