//! Whether a journal holds a record.
ghost use Rattle.std.specs.Prelude.{◌≡◌, ◌↔◌, IsTrue};
ghost use Rattle.vo_spec.specs.Journals.{Holds};

use owner_state::LentEntry;
use vo_spec::Record;

fn has_record(entry: &LentEntry<'_>, rec: &Record) -> bool
    ensures { IsTrue result ↔ (entry.now.rec ≡ rec.now) }
{
    *entry.rec() == *rec
}

/// Whether the entry of the record's version is there and has that very record.
#[tactic(auto, unfolding(vo_spec::specs::Journals::Holds))]
pub(crate) fn holds(entries: &[LentEntry<'_>], rec: &Record) -> bool
    ensures { IsTrue result ↔ Holds entries.now rec.now }
{
    match entries.get(rec.version as usize) {
        Some(entry) => has_record(entry, rec),
        None => false,
    }
}
