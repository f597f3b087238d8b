//! The machine takes one token after another.
ghost use Rattle.std.specs.Prelude.{◌≡◌, ◌<◌, ◌++◌, ℕ, List, length, IfOk, IsErr, OnOk, OnErr};
ghost use Rattle.tree_stream.specs.Machines.{Advances, IsAt, Takes, machine_of, summary_of_machine};
ghost use Rattle.tree_stream.specs.Summaries.{CanEnd, IsInNeededRow, Yields, summary_from};
ghost use Rattle.tree_stream.specs.Tokens.{token_size};

use crate::cells::{pass_cells, take_cell};
use crate::context::Context;
use crate::inner::take_separator;
use crate::leaves::{take_key, take_row};
use crate::machine::Machine;
use crate::nodes::take_node;
use crate::state::State;
use std::alloc::{AllocError, Global};
use std::mem;

fn next_state(
    context: &mut Context,
    alloc: Global,
    state: State,
    token: &[u8],
) -> Result<State, AllocError>
    requires { length token.now ≡ token_size state token.now }
    ensures ok { IfOk result (λ next. Yields context.new next
        (λ rest. summary_from context.old state (token.now ++ rest))) }
    ensures moves { IfOk result (λ next. (bytes : List ℕ) → IsAt (machine_of context.old state) bytes
        → IsAt (machine_of context.new next) (bytes ++ token.now)) }
    ensures way { IsErr result → CanEnd (λ rest. summary_from context.old state
        (token.now ++ rest)) }
    ensures memory { IsErr result → IsInNeededRow context.old state }
    ensures target { context.new.target ≡ context.old.target }
{
    match state {
        State::Node(visited) => Ok(take_node(context, visited, token)),
        State::Separator(head) => Ok(take_separator(context, head, token)),
        State::Key(leaf) => Ok(take_key(context, leaf, token)),
        State::Row(leaf) => take_row(context, alloc, leaf, token),
        State::Cell(row) => take_cell(context, alloc, row, token),
        State::Complete(_) => Ok(State::Invalid),
        State::Invalid => Ok(State::Invalid),
    }
}

/// Takes the whole cells in front of the bytes where a row stands, but for the row's last one, and
/// gives the bytes behind them. Where memory runs out, the machine takes nothing from then on. Most
/// tokens are such cells, and so the state isn't moved for them.
pub(crate) fn take_cells<'b>(
    machine: &mut Machine,
    alloc: Global,
    bytes: &'b [u8],
) -> Result<&'b [u8], AllocError>
    ensures ok { IfOk result (λ left. Advances machine.old machine.new bytes.now left.now) }
    ensures err { OnErr result (machine.new.state ≡ State.Invalid) }
    ensures way { IsErr result → CanEnd (summary_of_machine machine.old) }
    ensures memory { IsErr result → IsInNeededRow machine.old.context machine.old.state }
    ensures some { IsErr result → 0 < length bytes.now }
    ensures target { machine.new.context.target ≡ machine.old.context.target }
{
    match pass_in_row(&machine.context, alloc, &mut machine.state, bytes) {
        Ok(left) => Ok(left),
        Err(error) => {
            let _ = mem::replace(&mut machine.state, State::Invalid);
            Err(error)
        },
    }
}

/// The same, but that the state isn't known after an error.
fn pass_in_row<'b>(
    context: &Context,
    alloc: Global,
    state: &mut State,
    bytes: &'b [u8],
) -> Result<&'b [u8], AllocError>
    ensures ok { IfOk result (λ left. Advances (machine_of context.now state.old)
        (machine_of context.now state.new) bytes.now left.now) }
    ensures way { IsErr result → CanEnd (summary_from context.now state.old) }
    ensures memory { IsErr result → IsInNeededRow context.now state.old }
    ensures some { IsErr result → 0 < length bytes.now }
{
    match state {
        State::Cell(row) => pass_cells(context, alloc, row, bytes),
        _ => Ok(bytes),
    }
}

/// Takes a whole token. Where memory runs out, the machine takes nothing from then on.
pub(crate) fn take(machine: &mut Machine, alloc: Global, token: &[u8]) -> Result<(), AllocError>
    requires { length token.now ≡ token_size machine.old.state token.now }
    ensures ok { OnOk result (Takes machine.old machine.new token.now) }
    ensures err { OnErr result (machine.new.state ≡ State.Invalid) }
    ensures way { IsErr result → CanEnd (λ rest. summary_of_machine machine.old
        (token.now ++ rest)) }
    ensures memory { IsErr result → IsInNeededRow machine.old.context machine.old.state }
    ensures target { machine.new.context.target ≡ machine.old.context.target }
{
    let state = mem::replace(&mut machine.state, State::Invalid);
    machine.state = next_state(&mut machine.context, alloc, state, token)?;
    Ok(())
}
