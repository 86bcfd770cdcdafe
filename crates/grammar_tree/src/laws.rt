//! What is so of every derivation: laws of the definitions, each the contract of a function that does nothing.

ghost use Rattle.grammar_tree.specs.EmptyNodes.{EmptyByKind};
ghost use Rattle.grammar_tree.specs.Size.{NodesAreWithinSize};
ghost use Rattle.grammar_tree.specs.ReadingOrder.{ReadingOrderIsLinked};
ghost use Rattle.grammar_tree.specs.SetLaws.{PutIsFound, PutKeepsPlaces, NewGoesLast, RemovedIsGone, OthersAreFound};
ghost use Rattle.grammar_tree.specs.SpanLaws.{NoStepNoWord, OneMorePart, OneMoreTurn, FollowersGoOn, AllPartsDerive, EnoughTurnsDerive, ReachedIsInRange};
ghost use Rattle.grammar_tree.specs.Laws.{LeavesAreWords, EqualChoicesAreOneTree, NoChoicesGoOn, ChoicesTellTrees, TreesAreInOrder, TreesAreFinitelyMany, FirstIsUnique, FirstExists, FirstsAreUnique, FirstsExist, FirstIsFirstsOfOne, NoFirstsWithoutTree};

/// The words that a node derives are those at the leaves of its tree.
pub fn leaves_are_words()
    ensures { LeavesAreWords }
{}

/// Choices tell apart the trees of one node over the same words.
pub fn choices_tell_trees()
    ensures equal { EqualChoicesAreOneTree }
    ensures prefix { NoChoicesGoOn }
    ensures fronts { ChoicesTellTrees }
{}

/// The trees of one node over the same words are in one order, and finitely many where no rule derives itself.
pub fn trees_are_in_order()
    ensures order { TreesAreInOrder }
    ensures finite { TreesAreFinitelyMany }
{}

/// There is one first tree at most, and one where there is a tree and no rule derives itself.
pub fn first_is_one()
    ensures unique { FirstIsUnique }
    ensures exists { FirstExists }
{}

/// The list of the first trees is one, exists where no rule derives itself, and begins with the first tree.
pub fn firsts_are_one()
    ensures unique { FirstsAreUnique }
    ensures exists { FirstsExist }
    ensures single { FirstIsFirstsOfOne }
    ensures none { NoFirstsWithoutTree }
{}

/// A sequence is derived part by part, a repeat turn by turn, each from where the one before it ends.
pub fn fronts_grow()
    ensures none { NoStepNoWord }
    ensures part { OneMorePart }
    ensures turn { OneMoreTurn }
    ensures follows { FollowersGoOn }
{}

/// A sequence is derived by all of its parts, a repeat by so many turns as lie between its least and its most.
pub fn fronts_end()
    ensures parts { AllPartsDerive }
    ensures turns { EnoughTurnsDerive }
{}

/// What a derivation reaches is a node, after no more words than there are.
pub fn reached_nodes_are_nodes()
    ensures { ReachedIsInRange }
{}

/// A node can be empty by its kind and its parts.
pub fn empty_by_kind()
    ensures { EmptyByKind }
{}

/// An expansion is written with no more nodes than its size says.
pub fn nodes_are_within_size()
    ensures { NodesAreWithinSize }
{}

/// Nodes that are numbered in reading order, each before its parts, are linked.
pub fn reading_order_links()
    ensures { ReadingOrderIsLinked }
{}

/// Putting a document into a set: it is found, each document keeps its place, and a new one goes last.
pub fn puts_keep_places()
    ensures found { PutIsFound }
    ensures places { PutKeepsPlaces }
    ensures last { NewGoesLast }
{}

/// Taking a document out of a set: it is found no more, and every other is.
pub fn removals_leave_the_others()
    ensures gone { RemovedIsGone }
    ensures others { OthersAreFound }
{}
