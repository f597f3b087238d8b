//! A workload that is being drawn: which keys stand, and the step that comes next.
ghost use Rattle.std.specs.Prelude.{◌≡◌, ◌+◌, ◌*◌, ◌<◌, ◌≤◌, IfOk, OnOk, not, ◌&&◌};
ghost use Rattle.vo_gen.specs.Words.{key_of_number, word_of};
ghost use Rattle.vo_gen.specs.Workload.{max_steps, keys_for, step, steps_from, command_of, is_even};

use crate::steps::WorkloadStep;
use crate::words::Words;
use std::alloc::{AllocError, Global};
use std::marker::Model;
use vo_spec::{Batch, List};

/// Steps one after the other. Contracts see the generator's key, what keys are below, and how many
/// steps were drawn.
#[derive(Drop)]
pub struct Drawing {
    words: Words,
    /// Whether a row of each key stands.
    standing: Vec<bool>,
    /// What keys are below.
    keys: u32,
    /// How many steps were drawn.
    steps: u32,
}

impl Model for Drawing {
    ghost use Rattle.std.specs.Prelude.{◌≡◌, ℕ, ◌*◌, ◌<◌, ◌≤◌, length, slice_index_or, false};
    ghost use Rattle.vo_gen.specs.Words.{word_of};
    ghost use Rattle.vo_gen.specs.Workload.{Drawing as Seen, stands, max_steps};

    ghost Value = { Seen };

    ghost view = { λ d. record { key = d.words.key; keys = d.keys; steps = d.steps } };

    ghost invariant = { λ d. (d.words.place ≡ 2 * d.steps) × (d.steps ≤ max_steps) × (0 < d.keys)
        × (length d.standing.items ≡ d.keys)
        × ((k : ℕ) → k < d.keys → slice_index_or d.standing.items k false
        ≡ stands (word_of d.words.key) d.keys d.steps k) };
}

/// What the keys of n steps are below.
pub fn keys_for(n: u32) -> u32
    requires { n ≤ max_steps }
    ensures { result ≡ keys_for n }
{
    2 * n + 16
}

/// Whether a row stands behind a step of its key.
fn stands_behind(stands: bool, mark: u32) -> bool
    ensures { result ≡ not (stands && is_even mark) }
{
    !(stands && mark % 2 == 0)
}

impl Drawing {
    /// A workload of so many steps, of which none is drawn.
    pub fn new(alloc: Global, n: u32, number: u64) -> Result<Drawing, AllocError>
        requires { n ≤ max_steps }
        ensures { IfOk result (λ drawing. drawing ≡ record {
          key = key_of_number number;
          keys = keys_for n;
          steps = 0;
        }) }
    {
        let keys = keys_for(n);
        Ok(Drawing {
            words: Words::of_number(number),
            standing: vec![in alloc; false; keys as usize]?,
            keys,
            steps: 0,
        })
    }

    /// The next step.
    pub fn step(&mut self) -> WorkloadStep
        requires { self.old.steps < max_steps }
        ensures step { command_of result
            ≡ step (word_of self.old.key) self.old.keys self.old.steps }
        ensures rest { self.new ≡ record self.old { steps = self.old.steps + 1 } }
    {
        let key = self.words.next() % self.keys;
        let mark = self.words.next();
        let place = key as usize;
        let stands = self.standing[place];
        self.standing[place] = stands_behind(stands, mark);
        self.steps += 1;
        WorkloadStep::of(stands, key, mark, mark % self.keys)
    }

    /// So many next steps.
    pub fn batch(&mut self, alloc: Global, count: u32) -> Result<Batch, AllocError>
        requires { self.old.steps + count ≤ max_steps }
        ensures batch { IfOk result (λ batch. batch
            ≡ steps_from (word_of self.old.key) self.old.keys self.old.steps count) }
        ensures rest { OnOk result (self.new
            ≡ record self.old { steps = self.old.steps + count }) }
    {
        let mut commands = Vec::with_capacity(alloc, count as usize)?;
        for _drawn in 0..count {
            commands.push(self.step().command(alloc)?)?;
        }
        Ok(Batch {
            commands: List::from_vec(commands),
        })
    }

    /// The generator behind the steps.
    pub fn into_words(self) -> Words
        ensures { result ≡ record { key = self.key; place = 2 * self.steps } }
    {
        let Drawing { words, .. } = self;
        words
    }
}
