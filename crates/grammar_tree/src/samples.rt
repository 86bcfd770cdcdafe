//! What rules of small grammars derive, and by which tree first.

ghost use Rattle.std.specs.Prelude.{◌≡◌, ◌+◌, ℕ, [], ◌∷◌, codes};
ghost use Rattle.std.specs.List.{Contains};
ghost use Rattle.grammar_tree.specs.declared.expansion.TagNode.{TagNode};
ghost use Rattle.grammar_tree.specs.declared.parse_tree.ParseTree.{ParseTree};
ghost use Rattle.grammar_tree.specs.declared.parse_tree.ParseTree.TheVariants as tree;
ghost use Rattle.grammar_tree.specs.Links.{IsLinked};
ghost use Rattle.grammar_tree.specs.Derives.{Words, RuleDerives, RuleHasTree};
ghost use Rattle.grammar_tree.specs.Firsts.{RuleFirst, RuleFirsts};
ghost use Rattle.grammar_tree.specs.Alone.{SelfDerive, NoSelfDerivation};
ghost use Rattle.grammar_tree.specs.Longer.{Longer};
ghost use Rattle.grammar_tree.specs.Samples.{at, rule, xs, token_x, empty_turns, optional_repeated, alternatives, left_recursion, left_tree, self_reference, stop, two_garbages, Divides, beside_an_option, beside_a_word};

/// `$r = ([x] {tag}) <0->;`: over no words there is no turn, so no tag is visited; over `x` there is one.
pub fn empty_turns_are_not_taken()
    ensures linked { (tag : TagNode) → IsLinked (empty_turns tag) }
    ensures none { (tag : TagNode) → RuleFirst (empty_turns tag) (rule 0) [] (tree.Rep []) }
    ensures only { (tag : TagNode) (t : ParseTree) → RuleDerives (empty_turns tag) (rule 0) [] t → t ≡ tree.Rep [] }
    ensures one { (tag : TagNode) → RuleFirst (empty_turns tag) (rule 0) (xs 1) (tree.Rep (tree.Seq (tree.Rep (token_x ∷ []) ∷ (tree.Tag (at 4) ∷ [])) ∷ [])) }
{}

/// `$r = [x] <2>;`: over one `x` the first turn takes it, and the words may go on; two are all, and three too many.
pub fn optional_turns_may_be_empty()
    ensures linked { IsLinked optional_repeated }
    ensures first { RuleFirst optional_repeated (rule 0) (xs 1) (tree.Rep (tree.Rep (token_x ∷ []) ∷ (tree.Rep [] ∷ []))) }
    ensures goes_on { Longer optional_repeated (rule 0) (xs 1) }
    ensures full { Longer optional_repeated (rule 0) (xs 2) → ⊥ }
    ensures three { RuleHasTree optional_repeated (rule 0) (xs 3) → ⊥ }
{}

/// `$r = (x | x {tag});`: the first alternative comes first, and there are two trees.
pub fn first_alternative_wins()
    ensures linked { (tag : TagNode) → IsLinked (alternatives tag) }
    ensures first { (tag : TagNode) → RuleFirst (alternatives tag) (rule 0) (xs 1) (tree.Alt 0 token_x) }
    ensures both { (tag : TagNode) → RuleFirsts (alternatives tag) (rule 0) (xs 1) 4 (tree.Alt 0 token_x ∷ (tree.Alt 1 (tree.Seq (token_x ∷ (tree.Tag (at 4) ∷ []))) ∷ [])) }
{}

/// `$r = $r x | x;`: any number of `x` but none has one tree, and the rule doesn't derive itself.
pub fn left_recursion_ends()
    ensures linked { IsLinked left_recursion }
    ensures sound { NoSelfDerivation left_recursion }
    ensures none { RuleHasTree left_recursion (rule 0) [] → ⊥ }
    ensures first { (more : ℕ) → RuleFirst left_recursion (rule 0) (xs (more + 1)) (left_tree more) }
    ensures only { (more : ℕ) (t : ParseTree) → RuleDerives left_recursion (rule 0) (xs (more + 1)) t → t ≡ left_tree more }
{}

/// `$r = $a; $a = $a | x;`: of the two rules `$a` alone derives itself.
pub fn self_reference_is_found()
    ensures linked { IsLinked self_reference }
    ensures itself { SelfDerive self_reference (rule 1) }
    ensures other { SelfDerive self_reference (rule 0) → ⊥ }
{}

/// `$r = $g stop $h {tag}; $g = $GARBAGE; $h = $GARBAGE;`: the first `$GARBAGE` takes as few words as it can,
/// so the words are divided at the first `stop`.
pub fn garbage_takes_few_words()
    ensures linked { (tag : TagNode) → IsLinked (two_garbages tag) }
    ensures first { (before after : Words) → (Contains before stop → ⊥) → Divides before after }
    ensures behind { Divides (codes "a" ∷ []) (stop ∷ []) }
    ensures ahead { Divides [] (codes "a" ∷ (stop ∷ [])) }
{}

/// `$a = ([x] $a) <1-2> | x;` derives itself, since one turn will do and `[x]` can be empty;
/// `$b = (x $b) <1-2> | x;` doesn't, since a word stands beside `$b`.
pub fn what_stands_beside_counts()
    ensures linked { IsLinked beside_an_option × IsLinked beside_a_word }
    ensures itself { SelfDerive beside_an_option (rule 0) }
    ensures sound { NoSelfDerivation beside_a_word }
{}
