//! Where an owner that holds roots alone was fooled: a tree of its proofs that is no part of the
//! honest one, and the two byte strings of one digest that show it.
mod batches;
mod commands;
mod tables;

pub use batches::collision_of_batch;
pub use tables::compare_with_table;
