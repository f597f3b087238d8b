//! Writing replies.
ghost use Rattle.std.specs.Prelude.{◌≡◌, ◌++◌, ◌≤◌, ◌<◌, ◌^◌, length, IfOk, OnOk};
ghost use Rattle.vo_spec.specs.Bytes.{block};
ghost use Rattle.vo_spec.specs.Records.{FitsCatalog, catalog_bytes};
ghost use Rattle.vo_spec.specs.Replies.{FitsReply, reply_bytes};
ghost use Rattle.vo_format.specs.View.{reply_of};

use crate::reply::Reply;
use crate::tree_writing::put_trees;
use std::alloc::{AllocError, Global};
use version_record::{catalog_bytes, record_bytes};
use vo_spec::{Catalog, u32_bytes};

/// Puts bytes behind their length at the end.
fn put_block(out: &mut Vec<u8>, bytes: &[u8]) -> Result<(), AllocError>
    requires { length bytes.now < 2 ^ 32 }
    ensures { OnOk result (out.new.items ≡ out.old.items ++ block bytes.now) }
{
    out.extend_from_slice(&u32_bytes(bytes.len() as u32))?;
    out.extend_from_slice(bytes)
}

#[tactic(auto, using(crate::proofs::CatalogSizes::catalog_is_short))]
fn put_catalog_block(alloc: Global, out: &mut Vec<u8>, catalog: &Catalog) -> Result<(), AllocError>
    requires { FitsCatalog catalog.now }
    ensures { OnOk result (out.new.items ≡ out.old.items ++ block (catalog_bytes catalog.now)) }
{
    let bytes = catalog_bytes(alloc, catalog)?;
    put_block(out, &bytes)
}

/// Puts a reply at the end.
#[tactic(auto, unfolding(vo_spec::specs::Replies::reply_bytes))]
fn put_reply(alloc: Global, out: &mut Vec<u8>, reply: &Reply<'_>) -> Result<(), AllocError>
    requires { FitsReply (reply_of reply.now) }
    ensures { OnOk result (out.new.items ≡ out.old.items ++ reply_bytes (reply_of reply.now)) }
{
    out.extend_from_slice(b"VOR1")?;
    out.extend_from_slice(&record_bytes(&reply.rec))?;
    put_block(out, reply.signature)?;
    put_catalog_block(alloc, out, &reply.catalog)?;
    out.push(reply.trees.len() as u8)?;
    put_trees(out, &reply.trees)
}

/// The one spelling of a reply.
pub fn write_reply(alloc: Global, reply: &Reply<'_>) -> Result<Vec<u8>, AllocError>
    requires { FitsReply (reply_of reply.now) }
    ensures { IfOk result (λ bytes. bytes.items ≡ reply_bytes (reply_of reply.now)) }
{
    let mut out = Vec::new(alloc);
    put_reply(alloc, &mut out, reply)?;
    Ok(out)
}
