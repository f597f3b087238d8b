//! Reading replies.
ghost use Rattle.std.specs.Prelude.{◌≡◌, Some, IfOk, Err};
ghost use Rattle.vo_spec.specs.Replies.{IsReply, IsNoReply, Reply as Plain};
ghost use Rattle.row_bytes.specs.Fields.{ReadsAs, whole};
ghost use Rattle.row_bytes.specs.declared.read_fault.ReadFault.TheVariants.{BadForm};
ghost use Rattle.vo_format.specs.Reading.{signature_at, catalog_block_at, counted_trees_at, reply_at};
ghost use Rattle.vo_format.specs.Taking.{Takes, TakesOr};
ghost use Rattle.vo_format.specs.View.{reply_of, row_trees_of};

use crate::reply::Reply;
use crate::tree_reading::take_trees;
use mb_tree::PartTree;
use row_bytes::{Cursor, ReadFault};
use std::alloc::Global;
use version_record::{catalog_of_record, take_record};
use vo_spec::{Catalog, MAX_SIGNATURE, Magic};

#[tactic(auto, unfolding(crate::specs::Reading::signature_at))]
fn take_signature<'b>(cursor: &mut Cursor<'b>) -> Option<&'b [u8]>
    ensures { Takes (λ signature. signature.now) result cursor.new (signature_at cursor.old) }
{
    let signature = cursor.take_block()?;
    if signature.len() > MAX_SIGNATURE {
        return None;
    }
    Some(signature)
}

/// The catalog behind its length, if its record begins with this. Nothing is left over inside.
#[tactic(auto, unfolding(crate::specs::Reading::catalog_block_at))]
fn take_catalog_block(
    alloc: Global,
    magic: Magic,
    cursor: &mut Cursor<'_>,
) -> Result<Catalog, ReadFault>
    ensures { TakesOr (λ catalog. catalog) result cursor.new (catalog_block_at magic cursor.old) }
{
    match cursor.take_block() {
        Some(block) => catalog_of_record(alloc, magic, block),
        None => Err(ReadFault::BadForm),
    }
}

#[tactic(auto, unfolding(crate::specs::Reading::counted_trees_at))]
fn take_counted_trees<'b>(
    alloc: Global,
    cursor: &mut Cursor<'b>,
) -> Result<Vec<PartTree<'b>>, ReadFault>
    ensures { TakesOr row_trees_of result cursor.new (counted_trees_at cursor.old) }
{
    match cursor.take_byte() {
        Some(count) => take_trees(alloc, cursor, u16::from(count)),
        None => Err(ReadFault::BadForm),
    }
}

#[tactic(auto, unfolding(crate::specs::Reading::reply_at))]
fn take_reply<'b>(alloc: Global, cursor: &mut Cursor<'b>) -> Result<Reply<'b>, ReadFault>
    ensures { TakesOr reply_of result cursor.new (reply_at cursor.old) }
{
    let Some(_) = cursor.take_word(b"VOR1") else {
        return Err(ReadFault::BadForm);
    };
    let Some(rec) = take_record(cursor) else {
        return Err(ReadFault::BadForm);
    };
    let Some(signature) = take_signature(cursor) else {
        return Err(ReadFault::BadForm);
    };
    let catalog = take_catalog_block(alloc, rec.magic, cursor)?;
    let trees = take_counted_trees(alloc, cursor)?;
    Ok(Reply {
        rec,
        signature,
        catalog,
        trees,
    })
}

fn reply_in<'b>(alloc: Global, bytes: &'b [u8]) -> Result<Reply<'b>, ReadFault>
    ensures { ReadsAs reply_of result (whole (reply_at bytes.now)) }
{
    let mut cursor = Cursor::new(bytes);
    let reply = take_reply(alloc, &mut cursor)?;
    cursor.is_empty().then_some(reply).ok_or(ReadFault::BadForm)
}

/// The reply that all the bytes are.
pub fn read_reply<'b>(alloc: Global, bytes: &'b [u8]) -> Result<Reply<'b>, ReadFault>
    // What is read is spelled so, and keeps the limits.
    ensures found { IfOk result (λ reply. IsReply bytes.now (reply_of reply)) }

    // What is no reply, is none.
    ensures bad { result ≡ Err BadForm → IsNoReply bytes.now }

    // What is spelled so is read, unless memory runs out.
    ensures only { (reply : Plain) → IsReply bytes.now reply
        → ReadsAs reply_of result (Some reply) }
{
    reply_in(alloc, bytes)
}
