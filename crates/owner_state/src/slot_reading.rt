//! Reading the slots of a journal.
ghost use Rattle.std.specs.Prelude.{◌≡◌, ◌≤◌, ◌↔◌, List, length, take, IfOk, IsTrue};
ghost use Rattle.vo_spec.specs.declared.records.Entry.{Entry as Plain};
ghost use Rattle.vo_spec.specs.Journals.{Begins, IsClosed};
ghost use Rattle.row_bytes.specs.Fields.{Found};
ghost use Rattle.owner_state.specs.Reading.{slot_at};
ghost use Rattle.owner_state.specs.Endings.{StopsAt, EndsClosed, EndsAt, EndsSo};

use crate::entry_reading::take_slot;
use crate::lent_entry::LentEntry;
use row_bytes::{Cursor, ReadFault};
use std::alloc::{AllocError, Global};
use vo_spec::List;

/// How a journal ends: with a closed gate, or damaged. The gate that is closed, or that of the
/// first slot that is damaged, stands at this place.
#[derive(Clone, Copy, PartialEq, Eq, Debug)]
pub enum Ending {
    Closed { at: u64 },
    Damaged { at: u64 },
}

/// What can be read of a journal from its front.
#[derive(Debug, Drop)]
pub struct Slots<'b> {
    pub entries: List<LentEntry<'b>>,
    pub ending: Ending,
}

/// The entries of the first slots, and the bytes behind them.
#[derive(Drop)]
struct Front<'b> {
    entries: Vec<LentEntry<'b>>,
    rest: &'b [u8],
}

/// The entries of the slots that bytes begin with, and how the journal ends behind them.
pub fn read_slots(alloc: Global, bytes: &[u8]) -> Result<Slots<'_>, AllocError>
    ensures begins { IfOk result (λ slots. Begins bytes.now slots.entries) }
    ensures ending { IfOk result (λ slots. EndsSo bytes.now slots.entries slots.ending) }

    // Whatever entries can be read from the front are the first of these.
    ensures only { (es : List Plain) → Begins bytes.now es →
        IfOk result (λ slots. (es ≡ take (length es) slots.entries)
        × (length es ≤ length slots.entries)) }
{
    let front = read_front(alloc, bytes)?;
    let ending = ending_at(bytes, front.rest);
    Ok(Slots {
        entries: List::from_vec(front.entries),
        ending,
    })
}

fn read_front(alloc: Global, bytes: &[u8]) -> Result<Front<'_>, AllocError>
    ensures { IfOk result (λ front. StopsAt bytes.now front.entries.items front.rest.now) }
{
    let mut entries = Vec::new(alloc);
    let mut rest = bytes;
    'slots: loop {
        let mut cursor = Cursor::new(rest);
        match next_slot(alloc, &mut cursor)? {
            Some(entry) => entries.push(entry)?,
            None => return Ok(Front { entries, rest }),
        }
        rest = cursor.rest();
    }
}

/// The entry of the slot that comes next, if one does.
fn next_slot<'b>(
    alloc: Global,
    cursor: &mut Cursor<'b>,
) -> Result<Option<LentEntry<'b>>, AllocError>
    ensures { IfOk result (λ entry. Found (λ entry. entry) entry cursor.old cursor.new
        (slot_at cursor.old)) }
{
    match take_slot(alloc, cursor) {
        Ok(entry) => Ok(Some(entry)),
        Err(ReadFault::BadForm) => Ok(None),
        Err(ReadFault::Memory) => Err(AllocError),
    }
}

/// How a journal ends whose slots are read as far as they go.
fn ending_at(bytes: &[u8], rest: &[u8]) -> Ending
    requires { length rest.now ≤ length bytes.now }
    ensures { EndsAt bytes.now rest.now result }
{
    let at = (bytes.len() - rest.len()) as u64;
    if ends_closed(bytes, rest) {
        Ending::Closed { at }
    } else {
        Ending::Damaged { at }
    }
}

/// Whether a journal ends where no slot follows any more: it is too short for one, or the gate is
/// closed.
fn ends_closed(bytes: &[u8], rest: &[u8]) -> bool
    ensures { IsTrue result ↔ EndsClosed bytes.now rest.now }
{
    bytes.len() < 2 || is_closed(rest)
}

fn is_closed(rest: &[u8]) -> bool
    ensures { IsTrue result ↔ IsClosed rest.now }
{
    match rest.first() {
        Some(gate) => *gate != 1,
        None => false,
    }
}
