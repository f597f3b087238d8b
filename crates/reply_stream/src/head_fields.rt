//! The fields of a reply's head, each taken once it is whole.
ghost use Rattle.std.specs.Prelude.{◌≡◌, ◌++◌, ◌<◌, ℕ, List as Bytes, Some, length, IfOk, OnOk, OnErr};
ghost use Rattle.vo_spec.specs.Bytes.{u32_of};
ghost use Rattle.row_bytes.specs.declared.read_fault.ReadFault.TheVariants.{BadForm};
ghost use Rattle.row_bytes.specs.Fields.{whole};
ghost use Rattle.reply_stream.specs.Heads.{Yields, front_at, rest_of_head};
ghost use Rattle.reply_stream.specs.HeadFronts.{TookFields};
ghost use Rattle.reply_stream.specs.HeadFields.{field_size as size_of_field, fields_left, taken_count as count_of_taken};

use crate::head::Head;
use crate::head_state::{CatalogField, HeadState, SignatureField, SignedRecord};
use row_bytes::{Cursor, ReadFault};
use std::alloc::{AllocError, Global};
use std::mem;
use version_record::{catalog_of_record, take_record};
use vo_spec::{List, MAX_CATALOG, MAX_SIGNATURE, Record};

/// How many bytes the next field has, if one comes.
pub(crate) fn field_size(state: &HeadState) -> Option<usize>
    ensures { result ≡ size_of_field state.now }
{
    match state {
        HeadState::Front => Some(64),
        HeadState::SignatureLength(_) => Some(4),
        HeadState::Signature(field) => Some(field.size as usize),
        HeadState::CatalogLength(_) => Some(4),
        HeadState::Catalog(field) => Some(field.size as usize),
        HeadState::Complete(_) => None,
        HeadState::Invalid => None,
    }
}

/// How many bytes the fields have that were taken.
pub(crate) fn taken_count(state: &HeadState) -> usize
    ensures { result ≡ count_of_taken state.now }
{
    match state {
        HeadState::Front => 0,
        HeadState::SignatureLength(_) => 64,
        HeadState::Signature(_) => 68,
        HeadState::CatalogLength(signed) => 68 + signed.signature.as_slice().len(),
        HeadState::Catalog(field) => 72 + field.signed.signature.as_slice().len(),
        HeadState::Complete(head) => head.size(),
        HeadState::Invalid => 0,
    }
}

/// The record behind the first word.
#[tactic(auto, unfolding(crate::specs::Heads::front_at))]
fn record_in(token: &[u8]) -> Option<Record>
    ensures { result ≡ whole (front_at token.now) }
{
    let mut cursor = Cursor::new(token);
    cursor.take_word(b"VOR1")?;
    let rec = take_record(&mut cursor)?;
    if cursor.is_empty() { Some(rec) } else { None }
}

fn take_front(token: &[u8]) -> HeadState
    requires { length token.now ≡ 64 }
    ensures yields { Yields result (λ rest. rest_of_head HeadState.Front (token.now ++ rest)) }
    ensures took { TookFields result token.now }
    ensures fewer { fields_left result < 5 }
{
    match record_in(token) {
        Some(rec) => HeadState::SignatureLength(rec),
        None => HeadState::Invalid,
    }
}

/// The number that four bytes are.
#[tactic(auto, unfolding(vo_spec::specs::Bytes::u32_of))]
fn length_in(token: &[u8]) -> u32
    requires { length token.now ≡ 4 }
    ensures { result ≡ u32_of token.now }
{
    match token.split_first_chunk::<4>() {
        Some((chunk, _)) => u32::from_be_bytes(*chunk),
        None => unreachable!(),
    }
}

fn take_signature_length(rec: Record, token: &[u8]) -> HeadState
    requires { length token.now ≡ 4 }
    ensures yields { Yields result (λ rest. rest_of_head (HeadState.SignatureLength rec)
        (token.now ++ rest)) }
    ensures took { (taken : Bytes ℕ) → TookFields (HeadState.SignatureLength rec) taken
        → TookFields result (taken ++ token.now) }
    ensures fewer { fields_left result < 4 }
{
    let size = length_in(token);
    if size as usize > MAX_SIGNATURE {
        return HeadState::Invalid;
    }
    HeadState::Signature(SignatureField { rec, size })
}

fn take_signature(
    alloc: Global,
    field: SignatureField,
    token: &[u8],
) -> Result<HeadState, AllocError>
    requires { length token.now ≡ field.size }
    ensures yields { IfOk result (λ state. Yields state (λ rest.
        rest_of_head (HeadState.Signature field) (token.now ++ rest))) }
    ensures took { IfOk result (λ state. (taken : Bytes ℕ)
        → TookFields (HeadState.Signature field) taken
        → TookFields state (taken ++ token.now)) }
    ensures fewer { IfOk result (λ state. fields_left state < 3) }
{
    let SignatureField { rec, .. } = field;
    let signature = List::from_vec(Vec::from_slice(alloc, token)?);
    Ok(HeadState::CatalogLength(SignedRecord { rec, signature }))
}

fn take_catalog_length(signed: SignedRecord, token: &[u8]) -> HeadState
    requires { length token.now ≡ 4 }
    ensures yields { Yields result (λ rest. rest_of_head (HeadState.CatalogLength signed)
        (token.now ++ rest)) }
    ensures took { (taken : Bytes ℕ) → TookFields (HeadState.CatalogLength signed) taken
        → TookFields result (taken ++ token.now) }
    ensures fewer { fields_left result < 2 }
{
    let size = length_in(token);
    if size as usize > MAX_CATALOG {
        return HeadState::Invalid;
    }
    HeadState::Catalog(CatalogField { signed, size })
}

fn take_catalog(alloc: Global, field: CatalogField, token: &[u8]) -> Result<HeadState, AllocError>
    requires { length token.now ≡ field.size }
    ensures yields { IfOk result (λ state. Yields state (λ rest.
        rest_of_head (HeadState.Catalog field) (token.now ++ rest))) }
    ensures took { IfOk result (λ state. (taken : Bytes ℕ) → TookFields state taken) }
    ensures fewer { IfOk result (λ state. fields_left state < 1) }
{
    let CatalogField { signed, size, .. } = field;
    let SignedRecord { rec, signature } = signed;
    match catalog_of_record(alloc, rec.magic, token) {
        Ok(catalog) => Ok(HeadState::Complete(Head {
            rec,
            signature,
            catalog,
            catalog_size: size,
        })),
        Err(fault) => after_fault(fault),
    }
}

/// What comes of bytes of which no catalog was read.
fn after_fault(fault: ReadFault) -> Result<HeadState, AllocError>
    ensures invalid { IfOk result (λ state. (fault ≡ BadForm) × (state ≡ HeadState.Invalid)) }
    ensures took { IfOk result (λ state. (taken : Bytes ℕ) → TookFields state taken) }
    ensures fewer { IfOk result (λ state. fields_left state < 1) }
{
    match fault {
        ReadFault::BadForm => Ok(HeadState::Invalid),
        ReadFault::Memory => Err(AllocError),
    }
}

fn next_head_state(alloc: Global, state: HeadState, token: &[u8]) -> Result<HeadState, AllocError>
    requires { size_of_field state ≡ Some (length token.now) }
    ensures yields { IfOk result (λ next. Yields next (λ rest.
        rest_of_head state (token.now ++ rest))) }
    ensures took { IfOk result (λ next. (taken : Bytes ℕ) → TookFields state taken
        → TookFields next (taken ++ token.now)) }
    ensures fewer { IfOk result (λ next. fields_left next < fields_left state) }
{
    match state {
        HeadState::Front => Ok(take_front(token)),
        HeadState::SignatureLength(rec) => Ok(take_signature_length(rec, token)),
        HeadState::Signature(field) => take_signature(alloc, field, token),
        HeadState::CatalogLength(signed) => Ok(take_catalog_length(signed, token)),
        HeadState::Catalog(field) => take_catalog(alloc, field, token),
        HeadState::Complete(_) => Ok(HeadState::Invalid),
        HeadState::Invalid => Ok(HeadState::Invalid),
    }
}

/// Takes a whole field. Where memory runs out, nothing is read from then on.
pub(crate) fn take_field(
    state: &mut HeadState,
    alloc: Global,
    token: &[u8],
) -> Result<(), AllocError>
    requires { size_of_field state.old ≡ Some (length token.now) }
    ensures yields { OnOk result (Yields state.new (λ rest.
        rest_of_head state.old (token.now ++ rest))) }
    ensures took { OnOk result ((taken : Bytes ℕ) → TookFields state.old taken
        → TookFields state.new (taken ++ token.now)) }
    ensures fewer { OnOk result (fields_left state.new < fields_left state.old) }
    ensures err { OnErr result (state.new ≡ HeadState.Invalid) }
{
    let current = mem::replace(state, HeadState::Invalid);
    *state = next_head_state(alloc, current, token)?;
    Ok(())
}
