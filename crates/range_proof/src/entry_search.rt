//! The search of an open leaf for the n-th row that meets a condition.
ghost use Rattle.std.specs.Prelude.{◌≡◌, ◌<◌, map};
ghost use Rattle.vo_spec.specs.Walks.{walk_of_entries};
ghost use Rattle.range_proof.specs.Searching.{Searches, entry_walk};

use crate::naming::hides_any;
use crate::row_test::RowTest;
use crate::searching::Search;
use key_intervals::in_interval;
use mb_tree::RowEntry;
use vo_spec::Need;

pub fn search_entries<'t, E: RowEntry, T: RowTest>(
    entries: &'t [E],
    need: &Need,
    test: &T,
    wanted: u32,
) -> Search<'t>
    requires wanted { 0 < wanted }
    requires columns { T.columns test.now ≡ need.now.columns }
    ensures { Searches result (T.meets test.now) wanted
        (walk_of_entries need.now (map E.entry entries.now)) }
{
    let mut wanted = wanted;
    for entry in entries {
        match search_entry(entry, need, test, wanted) {
            Search::Ended(more) => wanted = more,
            over => return over,
        }
    }
    Search::Ended(wanted)
}

fn search_entry<'t, E: RowEntry, T: RowTest>(
    entry: &'t E,
    need: &Need,
    test: &T,
    wanted: u32,
) -> Search<'t>
    requires wanted { 0 < wanted }
    requires columns { T.columns test.now ≡ need.now.columns }
    ensures { Searches result (T.meets test.now) wanted (entry_walk need.now (E.entry entry.now)) }
{
    let key = entry.entry_key();
    let columns = need.columns.as_slice();
    if !in_interval(&need.interval, key) {
        return Search::Ended(wanted);
    }
    if hides_any(columns, entry) {
        return Search::Stopped;
    }
    if !test.meets(entry) {
        return Search::Ended(wanted);
    }
    if wanted == 1 {
        Search::Found(key)
    } else {
        Search::Ended(wanted - 1)
    }
}
