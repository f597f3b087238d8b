//! Pieces of any sizes, of which whole tokens are taken; a token that isn't whole is kept.
ghost use Rattle.std.specs.Prelude.{◌≡◌, ◌⊎◌, ◌↔◌, ◌<◌, ◌≤◌, [], ◌++◌, length, false, IsTrue, IfOk, IsErr, OnOk, OnErr};
ghost use Rattle.tree_stream.specs.Machines.{Advances, EndsWith, Grows, StopsInRow, summary_of_machine};
ghost use Rattle.tree_stream.specs.Summaries.{CanEnd, is_settled as has_settled};
ghost use Rattle.tree_stream.specs.Tokens.{token_size as size_of_token};

use crate::machine::Machine;
use crate::state::State;
use crate::take::{take, take_cells};
use crate::tokens::token_size;
use arrayvec::ArrayVec;
use std::alloc::{AllocError, Global};

/// Takes all tokens that are whole, and gives the bytes behind them.
fn take_all<'b>(
    machine: &mut Machine,
    alloc: Global,
    bytes: &'b [u8],
) -> Result<&'b [u8], AllocError>
    ensures ok { IfOk result (λ left. Advances machine.old machine.new bytes.now left.now) }
    ensures short { IfOk result (λ left.
        length left.now < size_of_token machine.new.state left.now) }
    ensures err { OnErr result (machine.new.state ≡ State.Invalid) }
    ensures way { IsErr result → CanEnd (summary_of_machine machine.old) }
    ensures memory { IsErr result → StopsInRow machine.old [] bytes.now }
    ensures target { machine.new.context.target ≡ machine.old.context.target }
{
    let mut left = bytes;
    let mut size = token_size(&machine.state, left);
    'tokens: while size <= left.len() {
        let (token, behind) = left.split_at(size);
        take(machine, alloc, token)?;
        left = take_cells(machine, alloc, behind)?;
        size = token_size(&machine.state, left);
    }
    Ok(left)
}

/// Puts what the token in front lacks behind the bytes of it, as far as the piece has that. Gives
/// the bytes behind it.
fn grow<'b>(state: &State, partial: &mut ArrayVec<u8, 1028>, piece: &'b [u8]) -> &'b [u8]
    requires short { length partial.old.items < size_of_token state.now partial.old.items }
    requires reading { has_settled state.now ≡ false }
    ensures grown { Grows partial.old.items partial.new.items piece.now result.now }
    ensures filled { (length partial.new.items ≡ size_of_token state.now partial.new.items)
        ⊎ ((length partial.new.items < size_of_token state.now partial.new.items)
        × (result.now ≡ [])) }
{
    let lacking = token_size(state, partial.as_slice()) - partial.len();
    let (front, left) = split_within(piece, lacking);
    let _ = partial.try_extend_from_slice(front);
    if partial.len() < token_size(state, partial.as_slice()) {
        if left.is_empty() {
            return left;
        }
        return grow(state, partial, left);
    }
    left
}

/// Fills up the token in front with bytes of the piece, and takes it once it is whole. Gives the
/// bytes behind it.
fn fill<'b>(
    machine: &mut Machine,
    partial: &mut ArrayVec<u8, 1028>,
    alloc: Global,
    piece: &'b [u8],
) -> Result<&'b [u8], AllocError>
    requires short { length partial.old.items < size_of_token machine.old.state partial.old.items }
    requires reading { has_settled machine.old.state ≡ false }
    ensures ok { IfOk result (λ left. Advances machine.old machine.new
        (partial.old.items ++ piece.now) (partial.new.items ++ left.now)) }
    ensures all { IfOk result (λ left. (partial.new.items ≡ []) ⊎ (left.now ≡ [])) }
    ensures behind { IfOk result (λ left. EndsWith piece.now left.now) }
    ensures kept { IsTrue (has_settled machine.new.state) → partial.new.items ≡ [] }
    ensures short { length partial.new.items < size_of_token machine.new.state partial.new.items }
    ensures err { OnErr result (machine.new.state ≡ State.Invalid) }
    ensures way { IsErr result → CanEnd (λ rest. summary_of_machine machine.old
        (partial.old.items ++ rest)) }
    ensures memory { IsErr result → StopsInRow machine.old partial.old.items piece.now }
    ensures target { machine.new.context.target ≡ machine.old.context.target }
{
    let left = grow(&machine.state, partial, piece);
    if partial.len() < token_size(&machine.state, partial.as_slice()) {
        return Ok(left);
    }
    let taken = take(machine, alloc, partial.as_slice());
    partial.clear();
    taken?;
    Ok(left)
}

/// At most so many bytes, and those behind them.
fn split_within<'b>(bytes: &'b [u8], count: usize) -> (&'b [u8], &'b [u8])
    ensures parts { bytes.now ≡ result.0.now ++ result.1.now }
    ensures within { length result.0.now ≤ count }
    ensures all { (length result.0.now ≡ count) ⊎ (result.1.now ≡ []) }
{
    if count <= bytes.len() {
        bytes.split_at(count)
    } else {
        (bytes, &[])
    }
}

/// Whether no token comes any more.
fn is_settled(state: &State) -> bool
    ensures { result ≡ has_settled state.now }
{
    match state {
        State::Node(_) => false,
        State::Separator(_) => false,
        State::Key(_) => false,
        State::Row(_) => false,
        State::Cell(_) => false,
        State::Complete(_) => true,
        State::Invalid => true,
    }
}

/// Takes what is whole, and keeps the rest. Gives the bytes behind the tree, or behind those that
/// are no tree.
fn feed_whole<'b>(
    machine: &mut Machine,
    partial: &mut ArrayVec<u8, 1028>,
    alloc: Global,
    bytes: &'b [u8],
) -> Result<&'b [u8], AllocError>
    requires { partial.old.items ≡ [] }
    ensures ok { IfOk result (λ left. Advances machine.old machine.new bytes.now
        (partial.new.items ++ left.now)) }
    ensures all { IfOk result (λ left. (left.now ≡ []) ⊎ IsTrue (has_settled machine.new.state)) }
    ensures kept { IsTrue (has_settled machine.new.state) → partial.new.items ≡ [] }
    ensures short { length partial.new.items < size_of_token machine.new.state partial.new.items }
    ensures err { OnErr result (machine.new.state ≡ State.Invalid) }
    ensures way { IsErr result → CanEnd (summary_of_machine machine.old) }
    ensures memory { IsErr result → StopsInRow machine.old [] bytes.now }
    ensures target { machine.new.context.target ≡ machine.old.context.target }
{
    let behind = take_all(machine, alloc, bytes)?;
    if is_settled(&machine.state) {
        return Ok(behind);
    }
    let _ = partial.try_extend_from_slice(behind);
    Ok(&[])
}

/// Takes a piece behind the bytes of a token that isn't whole. Gives the bytes behind the tree, or
/// behind those that are no tree.
pub(crate) fn feed_piece<'b>(
    machine: &mut Machine,
    partial: &mut ArrayVec<u8, 1028>,
    alloc: Global,
    piece: &'b [u8],
) -> Result<&'b [u8], AllocError>
    requires short { length partial.old.items < size_of_token machine.old.state partial.old.items }
    requires kept { IsTrue (has_settled machine.old.state) → partial.old.items ≡ [] }
    ensures ok { IfOk result (λ left. Advances machine.old machine.new
        (partial.old.items ++ piece.now) (partial.new.items ++ left.now)) }
    ensures all { IfOk result (λ left. (left.now ≡ []) ⊎ IsTrue (has_settled machine.new.state)) }
    ensures behind { IfOk result (λ left. EndsWith piece.now left.now) }
    ensures kept_new { IsTrue (has_settled machine.new.state) → partial.new.items ≡ [] }
    ensures short_new { length partial.new.items
        < size_of_token machine.new.state partial.new.items }
    ensures err { OnErr result (machine.new.state ≡ State.Invalid) }
    ensures way { IsErr result → CanEnd (λ rest. summary_of_machine machine.old
        (partial.old.items ++ rest)) }
    ensures memory { IsErr result → StopsInRow machine.old partial.old.items piece.now }
    ensures target { machine.new.context.target ≡ machine.old.context.target }
{
    if partial.is_empty() {
        return feed_whole(machine, partial, alloc, piece);
    }
    let left = fill(machine, partial, alloc, piece)?;
    if partial.is_empty() {
        return feed_whole(machine, partial, alloc, left);
    }
    Ok(left)
}
