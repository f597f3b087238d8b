//! The search of a walk for the n-th row that meets a condition.
ghost use Rattle.std.specs.Prelude.{◌≡◌, ◌<◌, None, map};
ghost use Rattle.vo_spec.specs.Walks.{walk_in, walk_in_each, walk};
ghost use Rattle.mb_tree.specs.RowNodes.{row_kids};
ghost use Rattle.range_proof.specs.Searching.{Searches};

use crate::entry_search::search_entries;
use crate::row_test::RowTest;
use crate::scanning::separator_at;
use btree::NodeView;
use key_intervals::{is_empty_interval, visits_from};
use mb_tree::RowNode;
use vo_spec::Need;

/// How a search ends: at the key of the row, before it with something missing, or at the end of the
/// walk with so many rows still wanted.
pub enum Search<'t> {
    Found(&'t [u8]),
    Stopped,
    Ended(u32),
}

/// Searches the walk for the row that is the last of so many.
pub fn search_tree<'t, N: RowNode, T: RowTest>(
    tree: &'t N,
    need: &Need,
    test: &T,
    wanted: u32,
) -> Search<'t>
    requires wanted { 0 < wanted }
    requires columns { T.columns test.now ≡ need.now.columns }
    ensures { Searches result (T.meets test.now) wanted (walk need.now (N.tree tree.now)) }
{
    if is_empty_interval(&need.interval) {
        Search::Ended(wanted)
    } else {
        search_node(tree, need, test, wanted)
    }
}

#[cycle(search)]
fn search_node<'t, N: RowNode, T: RowTest>(
    tree: &'t N,
    need: &Need,
    test: &T,
    wanted: u32,
) -> Search<'t>
    requires wanted { 0 < wanted }
    requires columns { T.columns test.now ≡ need.now.columns }
    ensures { Searches result (T.meets test.now) wanted (walk_in need.now (N.tree tree.now)) }
{
    match N::view(tree) {
        NodeView::Stub(_) => Search::Stopped,
        NodeView::Leaf(entries) => search_entries(entries, need, test, wanted),
        NodeView::Inner {
            separators,
            children,
        } => search_children::<N, T>(separators, children, need, test, wanted),
    }
}

#[cycle(search)]
fn search_children<'t, N: RowNode, T: RowTest>(
    separators: &[N::Key],
    children: &'t [N],
    need: &Need,
    test: &T,
    wanted: u32,
) -> Search<'t>
    requires wanted { 0 < wanted }
    requires columns { T.columns test.now ≡ need.now.columns }
    ensures { Searches result (T.meets test.now) wanted
        (walk_in_each need.now None (map N.Key.key separators.now)
        (row_kids N.tree children.now)) }
{
    let mut wanted = wanted;
    let mut is_past = false;
    let mut lower = None;
    for (place, child) in children.iter().enumerate() {
        let upper = separator_at(separators, place);
        if visits_from(is_past, &need.interval, lower, upper) {
            match search_node(child, need, test, wanted) {
                Search::Ended(more) => wanted = more,
                over => return over,
            }
            is_past = true;
        }
        lower = upper;
    }
    Search::Ended(wanted)
}
