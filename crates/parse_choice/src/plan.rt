//! What is still to be done, innermost first: trees to be made, and trees to be put together.

ghost use Rattle.std.specs.Prelude.{◌≡◌, [], ◌∷◌, OnOk, MatchOption};

use crate::accepted::Turns;
use earley_chart::Places;
use sqlite_items::Items;
use std::alloc::Global;
use std::marker::Model;
use vg_base::{Memory, NodeIx, RuleIx};

/// What is to be done at the place where the walk is.
#[derive(Drop)]
pub enum Job {
    /// A tree of the node is to be made, over words up to one of these places.
    Node { node: NodeIx, ends: Places },
    /// Turns of a repeat are to be made, behind those that were.
    Turns(Turns),
    /// $GARBAGE began at a place, and may take more words, up to one of these places.
    Garbage { from: u32, ends: Places },
    /// Trees that were made are to be put together.
    Close(Close),
}

/// How trees are put together: the last one alone, or all since there were so many.
#[derive(Clone, Copy)]
pub enum Close {
    Alt(u32),
    Rule(RuleIx),
    Seq(usize),
    Rep(usize),
}

/// The jobs that are left, the next one first.
#[derive(Drop)]
pub struct Plan {
    jobs: Items<Job>,
}

impl Model for Plan {
    ghost use Rattle.std.specs.Prelude.{List, reverse};
    ghost use Rattle.parse_choice.specs.declared.plan.Job.{Job};

    ghost Value = { List Job };

    ghost view = { λ p. reverse p.jobs };
}

impl Plan {
    pub fn new(alloc: Global) -> Plan
        ensures { result ≡ [] }
    {
        Plan {
            jobs: Items::new(alloc),
        }
    }

    pub fn push(&mut self, job: Job) -> Result<(), Memory>
        ensures { OnOk result (self.new ≡ job ∷ self.old) }
    {
        self.jobs.push(job)?;
        Ok(())
    }

    pub fn pop(&mut self) -> Option<Job>
        ensures { MatchOption result ((self.old ≡ []) × (self.new ≡ [])) (λ job. self.old ≡ job ∷ self.new) }
    {
        self.jobs.pop()
    }
}
