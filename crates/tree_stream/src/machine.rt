//! The machine that takes one token after another.
use crate::context::Context;
use crate::state::State;

#[derive(Drop)]
pub(crate) struct Machine {
    pub context: Context,
    pub state: State,
}
