//! What two accepted replies of one record show.
ghost use Rattle.std.specs.Prelude.{◌≡◌, IfOk};
ghost use Rattle.vo_spec.specs.Conditions.{query_of};
ghost use Rattle.vo_spec.specs.Replies.{FitsReply};
ghost use Rattle.vo_format.specs.View.{reply_of, row_trees_of};
ghost use Rattle.tree_collide.specs.Agreements.{HoldsOrCollides};
ghost use Rattle.tree_collide.specs.Preimages.{AreOfTrees};
ghost use Rattle.reply_meeting.specs.Accepting.{HasPassed};
ghost use Rattle.reply_meeting.specs.Comparing.{ShowTheSame, AreOfReplies};

use crate::catalogs::compare_catalogs;
use crate::common_needs::compare_needed;
use query_plan::{BindFault, bind};
use std::alloc::{AllocError, Global};
use tree_collide::are_all_same;
use vo_format::Reply;
use vo_spec::{Collision, QueryText};

/// None where the trees are the same, else two byte strings of one digest. What stands in them is
/// compared first: where it is the same, nothing is planned or hashed. A query that is wrong has no
/// trees.
fn compare_trees(
    alloc: Global,
    query: &QueryText,
    first: &Reply<'_>,
    second: &Reply<'_>,
) -> Result<Option<Collision>, AllocError>
    requires fits { FitsReply (reply_of first.now) }
    requires second_fits { FitsReply (reply_of second.now) }
    requires passed { HasPassed (query_of query.now) (reply_of first.now) }
    requires second_passed { HasPassed (query_of query.now) (reply_of second.now) }
    requires same { first.now.catalog ≡ second.now.catalog }
    ensures { IfOk result (λ found.
        HoldsOrCollides found (row_trees_of first.now.trees ≡ row_trees_of second.now.trees)
        (AreOfTrees (row_trees_of first.now.trees) (row_trees_of second.now.trees))) }
{
    if are_all_same(first.trees.as_slice(), second.trees.as_slice()) {
        return Ok(None);
    }
    match bind(alloc, &first.catalog, query) {
        Ok(bound) => compare_needed(alloc, &bound, &first.trees, &second.trees),
        Err(BindFault::Wrong(_)) => Ok(None),
        Err(BindFault::Memory) => Err(AllocError),
    }
}

/// None where the replies show the same, else two byte strings of one digest.
pub(crate) fn compare_replies(
    alloc: Global,
    query: &QueryText,
    first: &Reply<'_>,
    second: &Reply<'_>,
) -> Result<Option<Collision>, AllocError>
    requires fits { FitsReply (reply_of first.now) }
    requires second_fits { FitsReply (reply_of second.now) }
    requires passed { HasPassed (query_of query.now) (reply_of first.now) }
    requires second_passed { HasPassed (query_of query.now) (reply_of second.now) }
    requires same { first.now.rec ≡ second.now.rec }
    ensures { IfOk result (λ found.
        HoldsOrCollides found (ShowTheSame (reply_of first.now) (reply_of second.now))
        (AreOfReplies (reply_of first.now) (reply_of second.now))) }
{
    let found = compare_catalogs(alloc, &first.catalog, &second.catalog)?;
    if found.is_some() {
        return Ok(found);
    }
    compare_trees(alloc, query, first, second)
}
