//! The needs whose scans visit a node.
ghost use Rattle.std.specs.Prelude.{◌≡◌, [], map, IfOk, OnOk};
ghost use Rattle.std.specs.Option.{option_copied};
ghost use Rattle.vo_spec.specs.Pruning.{at_root as first_going, descend as next_going};
ghost use Rattle.range_proof.specs.Lending.{lent_need};

use key_intervals::{is_empty_interval, visits};
use std::alloc::{AllocError, Global};
use vo_spec::Need;

/// All of them, lent.
pub fn lend_needs<'n>(alloc: Global, needs: &'n [Need]) -> Result<Vec<&'n Need>, AllocError>
    ensures { IfOk result (λ all. map lent_need all.items ≡ needs.now) }
{
    let mut all = Vec::with_capacity(alloc, needs.len())?;
    for need in needs {
        all.push(need)?;
    }
    Ok(all)
}

/// Those whose scans visit the root.
pub fn active_at_root<'n>(alloc: Global, needs: &[&'n Need]) -> Result<Vec<&'n Need>, AllocError>
    ensures { IfOk result (λ active. map lent_need active.items
        ≡ first_going (map lent_need needs.now)) }
{
    let mut active = Vec::new(alloc);
    for need in needs {
        if !is_empty_interval(&need.interval) {
            active.push(*need)?;
        }
    }
    Ok(active)
}

/// Puts into the empty list those of the needs whose scans go on to the child between these
/// separators.
// Always inlined: most children have none, and a call would take as long as telling that.
#[inline(always)]
pub fn push_active<'n>(
    active: &mut Vec<&'n Need>,
    needs: &[&'n Need],
    lower: Option<&[u8]>,
    upper: Option<&[u8]>,
) -> Result<(), AllocError>
    requires { active.now.items ≡ [] }
    ensures { OnOk result (map lent_need active.new.items
        ≡ next_going (map lent_need needs.now) (option_copied lower.entry)
        (option_copied upper.entry)) }
{
    for need in needs {
        if visits(&need.interval, lower, upper) {
            active.push(*need)?;
        }
    }
    Ok(())
}
