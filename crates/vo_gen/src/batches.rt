//! The batches of a workload.
ghost use Rattle.std.specs.Prelude.{◌≡◌, ◌≤◌, IfOk, OnOk};
ghost use Rattle.vo_gen.specs.Words.{word_of};
ghost use Rattle.vo_gen.specs.Workload.{max_steps, keys_for, batches_of};

use crate::drawing::Drawing;
use crate::steps::creation;
use std::alloc::{AllocError, Global};
use vo_spec::{Batch, List};

/// How many steps a batch has, but for the last one.
const BATCH_STEPS: u32 = 100;

/// The batches of n steps, the first of them the CREATE's.
#[tactic(auto, unfolding(crate::specs::Workload::batches_of))]
pub fn batches(alloc: Global, drawing: &mut Drawing, n: u32) -> Result<List<Batch>, AllocError>
    requires steps { n ≤ max_steps }
    requires start { drawing.old.steps ≡ 0 }
    requires keys { drawing.old.keys ≡ keys_for n }
    ensures batches { IfOk result (λ made. made ≡ batches_of (word_of drawing.old.key) n) }
    ensures rest { OnOk result (drawing.new ≡ record drawing.old { steps = n }) }
{
    let count = n.div_ceil(BATCH_STEPS);
    let mut batches = Vec::with_capacity(alloc, count as usize + 1)?;
    batches.push(Batch {
        commands: List::from_vec(vec![in alloc; creation(alloc)?]?),
    })?;
    for j in 0..count {
        let left = n - BATCH_STEPS * j;
        batches.push(drawing.batch(alloc, left.min(BATCH_STEPS))?)?;
    }
    Ok(List::from_vec(batches))
}
