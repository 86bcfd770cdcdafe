//! The walk: through the grammar in reading order, taking at each choice the least from which the whole can be
//! completed.

ghost use Rattle.std.specs.Prelude.{◌≡◌, ◌+◌, ◌<◌, ◌≤◌, ◌^◌, [], ◌∷◌, length, Some, IfOk, OnOk, MatchOption, slice_get, drop};
ghost use Rattle.grammar_tree.specs.Links.{rule_at};
ghost use Rattle.grammar_tree.specs.Derives.{OfBody};
ghost use Rattle.grammar_tree.specs.declared.parse_tree.ParseTree.TheVariants as tree;
ghost use Rattle.parse_choice.specs.declared.plan.Job.TheVariants as job;
ghost use Rattle.parse_choice.specs.declared.plan.Close.TheVariants as close_of;
ghost use Rattle.parse_choice.specs.code.Ways.{AreInLine};
ghost use Rattle.parse_choice.specs.code.Walks.{IsGround, WalksOn, state_of, with_job, IsWalked, CanFollow};
ghost use Rattle.parse_choice.specs.code.Steps.{planned, moved, shut, Sequenced, Taken, NoneFrom, IsNext, Repeated, Turned, Collected, kept};

use crate::accepted::{Repeat, Turns, before, goes_further, has_some, ways};
use crate::guide::Trail;
use crate::plan::{Close, Job, Plan};
use earley_chart::{Chart, Places};
use grammar_tree::{Linked, Node, ParseTree, copy_words};
use sqlite_items::{Boxed, Items};
use std::alloc::Global;
use vg_base::{Memory, NodeIx, RuleIx, Word};

/// A tree of more levels isn't made: what drops it would go as deep.
const LEVELS: usize = 4_000;

/// A walk of more steps isn't made: no memory holds such a tree.
const STEPS: u32 = 1 << 30;

/// What is walked through: the trees of the body over the words, those that begin with the guide's choices first.
#[derive(Clone, Copy)]
pub struct Ground<'a> {
    pub alloc: Global,
    pub chart: &'a Chart,
    pub linked: &'a Linked,
    pub words: &'a [Word],
    pub body: NodeIx,
    pub guide: &'a [u32],
}

/// How far a walk has come: what is left to be done, the place in the line, and the trees that are not put together
/// yet.
#[derive(Drop)]
pub struct Walk {
    pub plan: Plan,
    pub place: u32,
    pub levels: usize,
    pub trees: Vec<ParseTree>,
    pub trail: Trail,
}

/// A tree, and the choices by which it was found.
#[derive(Drop)]
pub struct Walked {
    pub tree: ParseTree,
    pub trail: Trail,
}

/// The first tree whose choices go on from the guide.
pub fn walk_through(ground: &Ground<'_>) -> Result<Walked, Memory>
    requires ground { IsGround ground.now }
    requires guide { CanFollow ground.now }
    ensures { IfOk result (IsWalked ground.now) }
{
    let mut walk = Walk::start(ground)?;
    for _ in 0..STEPS {
        let Some(job) = walk.plan.pop() else {
            let walked = walk.finish()?;
            return Ok(walked);
        };
        walk.step(ground, job)?;
    }
    Err(Memory)
}

impl Walk {
    fn start(ground: &Ground<'_>) -> Result<Walk, Memory>
        requires ground { IsGround ground.now }
        requires guide { CanFollow ground.now }
        ensures { IfOk result (λ walk. WalksOn ground.now (state_of walk)) }
    {
        let mut plan = Plan::new(ground.alloc);
        plan.push(Job::Node {
            node: ground.body,
            ends: Places::one(ground.words.len() as u32),
        })?;
        Ok(Walk {
            plan,
            place: 0,
            levels: 0,
            trees: Vec::new(ground.alloc),
            trail: Trail::new(ground.alloc),
        })
    }

    /// Where nothing is left to be done, there is one tree.
    fn finish(self) -> Result<Walked, Memory>
        ensures { IfOk result (Collected self) }
    {
        let Walk {
            plan: _,
            place: _,
            levels: _,
            mut trees,
            trail,
        } = self;
        match trees.pop() {
            None => Err(Memory),
            Some(tree) => Ok(Walked { tree, trail }),
        }
    }

    /// One job.
    fn step(&mut self, ground: &Ground<'_>, job: Job) -> Result<(), Memory>
        requires ground { IsGround ground.now }
        requires walks { WalksOn ground.now (with_job job self.old) }
        ensures { OnOk result (WalksOn ground.now (state_of self.new)) }
    {
        match job {
            Job::Node { node, ends } => self.begin(ground, node, ends),
            Job::Turns(turns) => self.turn(ground, turns),
            Job::Garbage { from, ends } => self.garbage(ground, from, ends),
            Job::Close(close) => self.close(ground.alloc, close),
        }
    }

    /// A node is begun.
    fn begin(&mut self, ground: &Ground<'_>, node: NodeIx, ends: Places) -> Result<(), Memory>
        requires ground { IsGround ground.now }
        requires walks { WalksOn ground.now (with_job (job.Node node ends) self.old) }
        ensures { OnOk result (WalksOn ground.now (state_of self.new)) }
    {
        let _linked = ground.linked.node_count();
        match ground.linked.node(node) {
            Node::Token(own) => self.token(ground.alloc, own.as_slice()),
            Node::Seq(parts) => self.sequence(ground.chart, parts.as_slice(), ends),
            Node::Alt(parts) => self.alternatives(ground, parts.as_slice(), ends),
            Node::Rep { least, most, inner } => {
                let repeat = Repeat {
                    least: *least,
                    most: *most,
                    inner: *inner,
                };
                self.repeat(ground, repeat, ends)
            }
            Node::Ref(rule) => self.reference(ground.linked, *rule, ends),
            Node::Tag(_) => self.leaf(ParseTree::Tag(node), 0),
            // no walk comes to $VOID
            Node::Null | Node::Void => self.leaf(ParseTree::Null, 0),
            Node::Garbage => {
                let from = self.place;
                self.plan.push(Job::Garbage { from, ends })
            }
        }
    }

    /// A tree without parts, over so many words.
    fn leaf(&mut self, tree: ParseTree, words: u32) -> Result<(), Memory>
        requires { self.old.place + words < 2 ^ 32 }
        ensures { OnOk result (state_of self.new ≡ moved words tree (state_of self.old)) }
    {
        self.trees.push(tree)?;
        self.place += words;
        Ok(())
    }

    fn token(&mut self, alloc: Global, own: &[Word]) -> Result<(), Memory>
        requires { self.old.place + length own.now < 2 ^ 32 }
        ensures { OnOk result (state_of self.new ≡ moved (length own.now) (tree.Token own.now) (state_of self.old)) }
    {
        let words = copy_words(alloc, own)?;
        self.leaf(ParseTree::Token(words), own.len() as u32)
    }

    /// Trees are to be put together once what is planned next is done.
    fn open(&mut self, close: Close) -> Result<(), Memory>
        ensures { OnOk result (state_of self.new ≡ planned (job.Close close ∷ []) (state_of self.old)) }
    {
        if self.levels >= LEVELS {
            return Err(Memory);
        }
        self.levels += 1;
        self.plan.push(Job::Close(close))
    }

    /// The parts are planned from the last to the first, each up to the places from which those behind it can be
    /// completed.
    fn sequence(&mut self, chart: &Chart, parts: &[NodeIx], ends: Places) -> Result<(), Memory>
        requires { AreInLine chart.now }
        ensures { OnOk result (Sequenced chart.now parts.now ends (state_of self.old) (state_of self.new)) }
    {
        let from = self.trees.len();
        self.open(Close::Seq(from))?;
        let mut ends = ends;
        let mut left = parts.len();
        while left > 0 {
            left -= 1;
            let node = parts[left];
            self.plan.push(Job::Node { node, ends })?;
            ends = before(chart, node, ends, false);
        }
        Ok(())
    }

    /// The least alternative that can be completed, and that the guide allows.
    fn alternatives(
        &mut self,
        ground: &Ground<'_>,
        parts: &[NodeIx],
        ends: Places,
    ) -> Result<(), Memory>
        requires { length parts.now ≤ 2 ^ 32 }
        ensures { OnOk result (Taken ground.now parts.now ends (state_of self.old) (state_of self.new)) }
    {
        let bound = self.trail.bound(ground.guide) as usize;
        let Some(taken) = self.next_alternative(ground.chart, parts, ends, bound) else {
            // there is one, since the whole can be completed from here
            return Err(Memory);
        };
        let greater = self.next_alternative(ground.chart, parts, ends, taken as usize + 1);
        self.trail.take(taken, greater)?;
        self.open(Close::Alt(taken))?;
        let node = parts[taken as usize];
        self.plan.push(Job::Node { node, ends })?;
        Ok(())
    }

    /// The first alternative from so many on that can be completed.
    fn next_alternative(
        &self,
        chart: &Chart,
        parts: &[NodeIx],
        ends: Places,
        from: usize,
    ) -> Option<u32>
        requires { length parts.now ≤ 2 ^ 32 }
        ensures { MatchOption result (NoneFrom chart.now parts.now ends self.now.place from) (IsNext chart.now parts.now ends self.now.place from) }
    {
        for k in from..parts.len() {
            if !chart.ends(parts[k], self.place).shared(ends).is_empty() {
                return Some(k as u32);
            }
        }
        None
    }

    fn reference(&mut self, linked: &Linked, rule: RuleIx, ends: Places) -> Result<(), Memory>
        requires { rule.0 < length linked.now.rules }
        ensures { OnOk result (OfBody linked.now rule (λ body. state_of self.new ≡ planned (job.Node body ends ∷ (job.Close (close_of.Rule rule) ∷ [])) (state_of self.old))) }
    {
        self.open(Close::Rule(rule))?;
        let node = linked.rule(rule).body;
        self.plan.push(Job::Node { node, ends })
    }

    fn repeat(&mut self, ground: &Ground<'_>, repeat: Repeat, ends: Places) -> Result<(), Memory>
        requires { AreInLine ground.now.chart.now }
        ensures { OnOk result (Repeated ground.now repeat ends (state_of self.old) (state_of self.new)) }
    {
        let ways = ways(ground.alloc, ground.chart, repeat.inner, ends)?;
        let from = self.trees.len();
        self.open(Close::Rep(from))?;
        self.plan.push(Job::Turns(Turns {
            repeat,
            made: 0,
            ways,
        }))
    }

    /// One more turn, or none.
    fn turn(&mut self, ground: &Ground<'_>, turns: Turns) -> Result<(), Memory>
        requires line { AreInLine ground.now.chart.now }
        requires place { self.old.place < 65 }
        requires few { length turns.ways ≤ 65 }
        ensures { OnOk result (Turned ground.now turns (state_of self.old) (state_of self.new)) }
    {
        let ends = turns.onward(ground.chart, self.place);
        let possible = has_some(ends);
        let another = turns.another(&mut self.trail, ground.guide, self.place, possible)?;
        if !another {
            return Ok(());
        }
        let node = turns.repeat.inner;
        self.plan.push(Job::Turns(turns.next()?))?;
        self.plan.push(Job::Node { node, ends })?;
        Ok(())
    }

    /// $GARBAGE ends here, or takes one more word.
    fn garbage(&mut self, ground: &Ground<'_>, from: u32, ends: Places) -> Result<(), Memory>
        requires ground { IsGround ground.now }
        requires walks { WalksOn ground.now (with_job (job.Garbage from ends) self.old) }
        ensures { OnOk result (WalksOn ground.now (state_of self.new)) }
    {
        let stops = ends.has(self.place);
        let more = goes_further(ends, self.place, ground.words.len() as u32);
        let ends_here = self.trail.either(ground.guide, stops, more)?;
        if !ends_here {
            self.place += 1;
            self.plan.push(Job::Garbage { from, ends })?;
            return Ok(());
        }
        let own = &ground.words[from as usize..self.place as usize];
        let words = copy_words(ground.alloc, own)?;
        self.leaf(ParseTree::Garbage(words), 0)?;
        Ok(())
    }

    /// Trees are put together.
    fn close(&mut self, alloc: Global, close: Close) -> Result<(), Memory>
        ensures { OnOk result (state_of self.new ≡ shut close (state_of self.old)) }
    {
        self.levels = self.levels.saturating_sub(1);
        match close {
            Close::Alt(taken) => {
                if let Some(tree) = self.trees.pop() {
                    let inner = Boxed::new(alloc, tree)?;
                    self.trees.push(ParseTree::Alt { taken, inner })?;
                }
            }
            Close::Rule(rule) => {
                if let Some(tree) = self.trees.pop() {
                    let inner = Boxed::new(alloc, tree)?;
                    self.trees.push(ParseTree::Rule { rule, inner })?;
                }
            }
            Close::Seq(from) => {
                let parts = self.since(from)?;
                self.trees.push(ParseTree::Seq(parts))?;
            }
            Close::Rep(from) => {
                let turns = self.since(from)?;
                self.trees.push(ParseTree::Rep(turns))?;
            }
        }
        Ok(())
    }

    /// The trees that were made since there were so many.
    fn since(&mut self, from: usize) -> Result<Items<ParseTree>, Memory>
        ensures left { OnOk result (state_of self.new ≡ kept from (state_of self.old)) }
        ensures trees { IfOk result (λ trees. trees ≡ drop from self.old.trees.items) }
    {
        let from = from.min(self.trees.len());
        let trees = self.trees.split_off(from)?;
        Ok(Items::from_vec(trees))
    }
}
