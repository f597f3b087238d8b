//! What holds of every workload, as the contract of a function that does nothing.
ghost use Rattle.std.specs.Prelude.{◌≡◌, ℕ, ◌^◌, ◌<◌, ◌≤◌, List, [], length, codes};
ghost use Rattle.std.specs.List.{AllByRecursion};
ghost use Rattle.vo_spec.specs.Tables.{has_row, rows_named, tables_after};
ghost use Rattle.vo_spec.specs.Values.{key_of};
ghost use Rattle.vo_laws.specs.Sealing.{AreAcceptedAfter};
ghost use Rattle.vo_gen.specs.Workload.{max_steps, keys_for, number, stands, batches_of, commands_of, tables_of, IsDrawn};

/// Whatever the words, the batches of a workload are accepted one after the other, from no tables
/// on: none of its commands is refused. Behind them there is one table, with no more rows than there
/// were steps: a row of exactly the keys that stand.
pub fn workloads_are_accepted()
    ensures accepted { (word : ℕ → ℕ) (n : ℕ) → n ≤ max_steps
        → AreAcceptedAfter [] (commands_of (batches_of word n)) }
    ensures table { (word : ℕ → ℕ) (n : ℕ) → n ≤ max_steps
        → let tables = tables_after (commands_of (batches_of word n)) in
        tables ≡ tables_of (rows_named (codes "t") tables) }
    ensures few { (word : ℕ → ℕ) (n : ℕ) → n ≤ max_steps
        → length (rows_named (codes "t") (tables_after (commands_of (batches_of word n)))) ≤ n }
    ensures rows { (word : ℕ → ℕ) (n key : ℕ) → n ≤ max_steps → key < 2 ^ 63
        → has_row (key_of (number key))
        (rows_named (codes "t") (tables_after (commands_of (batches_of word n))))
        ≡ stands word (keys_for n) n key }
    ensures no_others { (word : ℕ → ℕ) (n : ℕ) → n ≤ max_steps
        → AllByRecursion (IsDrawn word (keys_for n))
        (rows_named (codes "t") (tables_after (commands_of (batches_of word n)))) }
{}
