//! How many tuples each step took in.

ghost use Rattle.std.specs.Prelude.{◌≡◌, ◌+◌, ◌<◌, ◌≤◌, ℕ, length, IfOk};
ghost use Rattle.piece_outcomes.specs.Counting.{taken_by, past};

use item_tree::NoMemory;
use std::alloc::Global;

/// How many tuples each of some steps took in, one after the other from this number on.
#[derive(Debug, Drop)]
pub struct Counts {
    pub first: u32,
    pub taken: Vec<u64>,
}

impl Counts {
    ghost use Rattle.std.specs.Prelude.{◌≡◌, ◌+◌, ◌<◌, ◌≤◌, ◌==◌, ℕ, length, if◌then◌else◌, IfOk, OnOk, OnErr};
    ghost use Rattle.piece_outcomes.specs.Counting.{taken_by, TakesMore};

    /// No tuple yet, for so many steps from this number on.
    pub fn new(alloc: Global, first: u32, steps: usize) -> Result<Counts, NoMemory>
        ensures first { IfOk result (λ c. c.first ≡ first) }
        ensures steps { IfOk result (λ c. length c.taken.items ≡ steps) }
        ensures none { IfOk result (λ c. (step : ℕ) → taken_by c step ≡ 0) }
    {
        let mut taken = Vec::with_capacity(alloc, steps)?;
        for _step in 0..steps {
            taken.push(0)?;
        }
        Ok(Counts { first, taken })
    }

    /// How many tuples this step took in; none where it is no step of these.
    pub fn at(&self, step: u32) -> u64
        ensures { result ≡ taken_by self.now step }
    {
        if step < self.first {
            return 0;
        }
        match self.taken.get((step - self.first) as usize) {
            Some(n) => *n,
            None => 0,
        }
    }

    /// The step takes in so many tuples more. Gives how many it took in then. More than can be
    /// counted are want of memory, and nothing is changed then.
    pub fn count_in(&mut self, step: u32, more: u64) -> Result<u64, NoMemory>
        requires first { self.old.first ≤ step }
        requires fits { step < self.old.first + length self.old.taken.items }
        ensures first { self.new.first ≡ self.old.first }
        ensures fits { length self.new.taken.items ≡ length self.old.taken.items }
        ensures takes { OnOk result (TakesMore step more self.old self.new) }
        ensures number { IfOk result (λ n. n ≡ taken_by self.new step) }
        ensures kept { OnErr result (self.new ≡ self.old) }
    {
        let place = (step - self.first) as usize;
        let Some(n) = self.taken[place].checked_add(more) else {
            return Err(NoMemory);
        };
        self.taken[place] = n;
        Ok(n)
    }

    // How many tuples the step took in that is so many behind `from`.
    fn after(&self, from: u32, steps: usize) -> u64
        requires { from ≤ self.now.first }
        ensures { result ≡ taken_by self.now (from + steps) }
    {
        let skipped = (self.first - from) as usize;
        if steps < skipped {
            return 0;
        }
        match self.taken.get(steps - skipped) {
            Some(n) => *n,
            None => 0,
        }
    }

    // How many steps there are from this number up to the last of these.
    fn steps_from(&self, from: u32) -> Result<usize, NoMemory>
        requires { from ≤ self.now.first }
        ensures { IfOk result (λ n. from + n ≡ past self.now) }
    {
        let skipped = (self.first - from) as usize;
        match skipped.checked_add(self.taken.len()) {
            Some(n) => Ok(n),
            None => Err(NoMemory),
        }
    }

    /// What each step took in here and there together. More than can be counted are want of memory.
    pub fn plus(&self, alloc: Global, other: &Counts) -> Result<Counts, NoMemory>
        ensures { IfOk result (λ c. (step : ℕ)
            → taken_by c step ≡ taken_by self.now step + taken_by other.now step) }
    {
        let first = least(self.first, other.first);
        let steps = most(self.steps_from(first)?, other.steps_from(first)?);
        let mut taken = Vec::with_capacity(alloc, steps)?;
        for step in 0..steps {
            let n = self.after(first, step);
            match n.checked_add(other.after(first, step)) {
                Some(n) => taken.push(n)?,
                None => return Err(NoMemory),
            }
        }
        Ok(Counts { first, taken })
    }
}

fn least(a: u32, b: u32) -> u32
    ensures first { result ≤ a }
    ensures second { result ≤ b }
{
    if a < b { a } else { b }
}

fn most(a: usize, b: usize) -> usize
    ensures first { a ≤ result }
    ensures second { b ≤ result }
{
    if a < b { b } else { a }
}
