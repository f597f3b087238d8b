//! The law that the replies of a workload's store are within their limit.
ghost use Rattle.std.specs.Prelude.{ℕ, ◌≤◌, All};
ghost use Rattle.vo_spec.specs.Conditions.{query_of};
ghost use Rattle.vo_gen.specs.Workload.{max_steps, batches, commands_of, queries};
ghost use Rattle.workload_run.specs.Parties.{HasRoom};

/// The reply to each query of a workload is within the limit: its table has no more rows than there
/// were steps, and of each the tree has a few hundred bytes at most.
pub fn workload_replies_fit()
    ensures { (steps number : ℕ) → steps ≤ max_steps
        → All (λ q. HasRoom (commands_of (batches steps number)) (query_of q))
        (queries steps number) }
{}
