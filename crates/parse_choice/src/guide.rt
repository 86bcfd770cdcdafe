//! The choices that a walk makes, and where the next walk may turn off.

ghost use Rattle.std.specs.Prelude.{◌≡◌, [], None, IsTrue, IfOk, OnOk};
ghost use Rattle.parse_choice.specs.code.Trails.{bound_of, took, TakesFirst, TakesSecond, ForkWithin, guide_after};

use sqlite_items::Items;
use std::alloc::Global;
use vg_base::Memory;

/// Where a greater choice could be completed too: behind so many choices, and the least such.
#[derive(Clone, Copy)]
pub struct Fork {
    pub at: usize,
    pub choice: u32,
}

/// The choices so far, and of the places where a greater choice could be completed too, the last.
#[derive(Drop)]
pub struct Trail {
    pub log: Items<u32>,
    pub fork: Option<Fork>,
}

impl Trail {
    pub fn new(alloc: Global) -> Trail
        ensures log { result.log ≡ [] }
        ensures fork { result.fork ≡ None }
    {
        Trail {
            log: Items::new(alloc),
            fork: None,
        }
    }

    /// The next choice may not be less than this: the guide's as far as that goes.
    pub fn bound(&self, guide: &[u32]) -> u32
        ensures { result ≡ bound_of guide.now self.now }
    {
        match guide.get(self.log.len()) {
            None => 0,
            Some(choice) => *choice,
        }
    }

    /// Takes a choice, where the next greater one that could be completed is this.
    pub fn take(&mut self, choice: u32, greater: Option<u32>) -> Result<(), Memory>
        ensures { OnOk result (self.new ≡ took self.old choice greater) }
    {
        if let Some(greater) = greater {
            self.fork = Some(Fork {
                at: self.log.len(),
                choice: greater,
            });
        }
        self.log.push(choice)?;
        Ok(())
    }

    /// Takes the first of two choices where it may be taken and could be completed, else the second.
    pub fn either(&mut self, guide: &[u32], first: bool, second: bool) -> Result<bool, Memory>
        ensures first { IfOk result (λ taken. IsTrue taken → TakesFirst guide.now first second self.old self.new) }
        ensures second { IfOk result (λ taken. (IsTrue taken → ⊥) → TakesSecond guide.now first self.old self.new) }
    {
        if first && self.bound(guide) == 0 {
            self.take(0, if second { Some(1) } else { None })?;
            Ok(true)
        } else {
            self.take(1, None)?;
            Ok(false)
        }
    }

    /// The choices up to the fork, and the greater one there.
    pub fn next_guide(&self, alloc: Global) -> Result<Option<Items<u32>>, Memory>
        requires { ForkWithin self.now }
        ensures { IfOk result (λ guide. guide ≡ guide_after self.now) }
    {
        let Some(fork) = self.fork else {
            return Ok(None);
        };
        let mut guide = Items::from_slice(alloc, &self.log.as_slice()[..fork.at])?;
        guide.push(fork.choice)?;
        Ok(Some(guide))
    }
}
