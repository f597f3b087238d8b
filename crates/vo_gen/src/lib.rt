//! A workload that anyone can generate: batches of commands on one table, and queries of it, by the
//! words of a ChaCha8 generator whose seed is a number.
#![tactic(auto)]

ghost use Rattle.std.specs.Prelude.{◌≡◌, ◌≤◌, All, IfOk};
ghost use Rattle.vo_spec.specs.Batches.{FitsBatch};
ghost use Rattle.vo_spec.specs.Conditions.{query_of, FitsQuery};
ghost use Rattle.vo_gen.specs.Workload.{max_steps, batches, queries};

mod batches;
mod drawing;
mod laws;
mod queries;
mod steps;
mod words;

use crate::batches::batches;
use crate::drawing::Drawing;
use crate::queries::queries;
pub use laws::workloads_are_accepted;
use std::alloc::{AllocError, Global};
use vo_spec::{Batch, List, QueryText};

/// What an owner commits, and what is asked of its store then.
#[derive(Drop)]
pub struct Work {
    pub batches: List<Batch>,
    pub queries: List<QueryText>,
}

/// The workload of n steps that a number gives.
pub fn generate(alloc: Global, n: u32, number: u64) -> Result<Work, AllocError>
    requires { n ≤ max_steps }
    ensures work { IfOk result (λ work. (work.batches ≡ batches n number)
        × (work.queries ≡ queries n number)) }
    ensures fits { IfOk result (λ work. All (λ batch. FitsBatch batch.commands) work.batches
        × All (λ query. FitsQuery (query_of query)) work.queries) }
{
    let mut drawing = Drawing::new(alloc, n, number)?;
    let batches = batches(alloc, &mut drawing, n)?;
    let queries = queries(alloc, &mut drawing.into_words(), n)?;
    Ok(Work { batches, queries })
}

#[cfg(test)]
mod tests;
