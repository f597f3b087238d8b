//! A reply's head whose bytes come in pieces.
ghost use Rattle.std.specs.Prelude.{◌≡◌, ◌⊎◌, ◌++◌, ◌<◌, ◌≤◌, ◌-◌, ◌^◌, ℕ, min, List, [], Some, None, length, IsNone, IsErr, IsOk, IfOk, IfSome, OnOk, OnErr};
ghost use Rattle.reply_stream.specs.Heads.{head_at, rest_of_head};
ghost use Rattle.reply_stream.specs.HeadFronts.{IsBehindBytes, IsHeadFront, TookFields};
ghost use Rattle.reply_stream.specs.HeadFields.{FitField, field_size as size_of_field, fields_left};

use crate::head::Head;
use crate::head_fields::{field_size, take_field, taken_count};
use crate::head_state::HeadState;
use std::alloc::{AllocError, Global};

/// A reader of a reply's head. It holds no more of the bytes than a field that isn't whole.
#[derive(Drop)]
pub struct HeadStream {
    state: HeadState,
    held: Vec<u8>,
    ghost short: { (size : ℕ) → size_of_field state ≡ Some size → length held.items < size },
    ghost kept: { size_of_field state ≡ None → held.items ≡ [] },
}

impl HeadStream {
    ghost use Rattle.reply_stream.specs.HeadStreams.{IsBehind, IsSettled, head_of, held_in};

    /// A reader that was given no bytes.
    pub fn new(alloc: Global) -> HeadStream
        ensures head { (bytes : List ℕ) → head_of result bytes ≡ head_at bytes }
        ensures behind { IsBehind result [] }
    {
        HeadStream {
            state: HeadState::Front,
            held: Vec::new(alloc),
        }
    }

    /// Takes the piece that comes next, up to the catalog's last byte, and gives the bytes behind
    /// that. Of bytes that are no head it takes no more.
    pub fn feed<'b>(&mut self, alloc: Global, piece: &'b [u8]) -> Result<&'b [u8], AllocError>
        // It is as if the piece had stood in front of the bytes to come, but for what is left of
        // it.
        ensures ok { IfOk result (λ left. (more : List ℕ)
            → head_of self.new (left.now ++ more) ≡ head_of self.old (piece.now ++ more)) }

        ensures behind { IfOk result (λ left. (bytes : List ℕ) → IsBehind self.old bytes
            → IsBehind self.new (bytes ++ piece.now)) }

        // All of it is taken until the head ends.
        ensures all { IfOk result (λ left. (left.now ≡ []) ⊎ IsSettled self.new) }

        // Where memory ran out, no head comes of it any more.
        ensures err { OnErr result ((more : List ℕ) → head_of self.new more ≡ None) }

        // It runs out only where the bytes so far are the front of a head.
        ensures memory { IsErr result → (bytes : List ℕ) → IsBehind self.old bytes
            → IsHeadFront bytes }
    {
        feed_fields(&mut self.state, &mut self.held, alloc, piece)
    }

    /// How many bytes are held: those of the fields that were taken, and of one that isn't whole.
    pub fn held(&self) -> usize
        ensures count { result ≡ min (held_in self.now) (2 ^ 64 - 1) }

        // Before the head ends these are all that came, or none where they can't be a head.
        ensures front { head_of self.now [] ≡ None → (bytes : List ℕ) → IsBehind self.now bytes
            → length bytes < 2 ^ 64 → (result ≡ length bytes)
            ⊎ ((result ≡ 0) × ((more : List ℕ) → head_of self.now more ≡ None)) }
    {
        taken_count(&self.state).saturating_add(self.held.len())
    }

    /// The head, where it has ended.
    pub fn head(&self) -> Option<&Head>
        // All that comes next is behind it.
        ensures found { IfSome result (λ head. (more : List ℕ)
            → head_of self.now more ≡ Some (head.now, more)) }
        ensures none { IsNone result → head_of self.now [] ≡ None }
    {
        match &self.state {
            HeadState::Front => None,
            HeadState::SignatureLength(_) => None,
            HeadState::Signature(_) => None,
            HeadState::CatalogLength(_) => None,
            HeadState::Catalog(_) => None,
            HeadState::Complete(head) => Some(head),
            HeadState::Invalid => None,
        }
    }

    /// The same, for whoever keeps it.
    pub fn end(self) -> Option<Head>
        ensures found { IfSome result (λ head. (more : List ℕ)
            → head_of self more ≡ Some (head, more)) }
        ensures none { IsNone result → head_of self [] ≡ None }
    {
        let HeadStream { state, .. } = self;
        match state {
            HeadState::Front => None,
            HeadState::SignatureLength(_) => None,
            HeadState::Signature(_) => None,
            HeadState::CatalogLength(_) => None,
            HeadState::Catalog(_) => None,
            HeadState::Complete(head) => Some(head),
            HeadState::Invalid => None,
        }
    }
}

/// Takes all fields that are whole, and keeps the bytes of the next one.
fn feed_fields<'b>(
    state: &mut HeadState,
    held: &mut Vec<u8>,
    alloc: Global,
    piece: &'b [u8],
) -> Result<&'b [u8], AllocError>
    requires { FitField (size_of_field state.old) held.old.items }
    ensures ok { IfOk result (λ left. (more : List ℕ)
        → rest_of_head state.new (held.new.items ++ (left.now ++ more))
        ≡ rest_of_head state.old (held.old.items ++ (piece.now ++ more))) }
    ensures all { IfOk result (λ left. (left.now ≡ []) ⊎ (size_of_field state.new ≡ None)) }
    ensures short { (size : ℕ) → size_of_field state.new ≡ Some size
        → length held.new.items < size }
    ensures kept { size_of_field state.new ≡ None → held.new.items ≡ [] }
    ensures err { OnErr result (state.new ≡ HeadState.Invalid) }
    ensures behind { IfOk result (λ left. (bytes : List ℕ)
        → IsBehindBytes state.old held.old.items bytes
        → IsBehindBytes state.new held.new.items (bytes ++ piece.now)) }
    ensures memory { size_of_field state.old ≡ None → IsOk result }
{
    let Some(size) = field_size(state) else {
        return Ok(piece);
    };
    let lacking = size - held.len();
    if piece.len() < lacking {
        return match held.extend_from_slice(piece) {
            Ok(()) => Ok(&[]),
            Err(error) => Err(give_up(state, held, error)),
        };
    }
    let (front, left) = piece.split_at(lacking);
    if let Err(error) = fill_field(state, held, alloc, front) {
        return Err(give_up(state, held, error));
    }
    held.clear();
    feed_fields(state, held, alloc, left)
}

/// Puts the last bytes of a field behind those that were held, and takes it.
fn fill_field(
    state: &mut HeadState,
    held: &mut Vec<u8>,
    alloc: Global,
    front: &[u8],
) -> Result<(), AllocError>
    requires { size_of_field state.old ≡ Some (length (held.old.items ++ front.now)) }
    ensures yields { OnOk result ((rest : List ℕ) → rest_of_head state.new rest
        ≡ rest_of_head state.old ((held.old.items ++ front.now) ++ rest)) }
    ensures took { OnOk result ((taken : List ℕ) → TookFields state.old taken
        → TookFields state.new (taken ++ (held.old.items ++ front.now))) }
    ensures fewer { OnOk result (fields_left state.new < fields_left state.old) }
{
    held.extend_from_slice(front)?;
    take_field(state, alloc, held)
}

/// Nothing is read any more.
fn give_up(state: &mut HeadState, held: &mut Vec<u8>, error: AllocError) -> AllocError
    ensures state { state.new ≡ HeadState.Invalid }
    ensures held { held.new.items ≡ [] }
{
    *state = HeadState::Invalid;
    held.clear();
    error
}
