//! What a world shows of itself.
use line_pieces::{NoAnswer, form_of};
use std::alloc::Global;
use tagged_hash::digest_of;
use version_record::record_bytes;
use vo_spec::Record;
use vo_world::{AcceptedReply, World};

/// A part of what a world shows.
#[derive(Clone, Copy)]
pub enum Part {
    Clients,
    Entries,
    Journal,
    Released,
    Accepted,
}

/// That part of a world.
pub fn show(alloc: Global, world: &World, part: Part) -> Result<String, NoAnswer> {
    match part {
        Part::Clients => Ok(format!(in alloc; "{}", world.client_count())?),
        Part::Entries => Ok(format!(in alloc; "{}", world.entries().len())?),
        Part::Journal => journal_text(alloc, world),
        Part::Released => records_text(alloc, world.released_records()),
        Part::Accepted => replies_text(alloc, world.accepted_replies()),
    }
}

/// How long the journal is, and its digest.
pub fn journal_text(alloc: Global, world: &World) -> Result<String, NoAnswer> {
    let journal = world.journal();
    let digest = form_of(alloc, &digest_of(journal))?;
    Ok(format!(in alloc; "{} bytes {digest}", journal.len())?)
}

fn records_text(alloc: Global, records: &[Record]) -> Result<String, NoAnswer> {
    let mut line = format!(in alloc; "{}", records.len())?;
    for rec in records {
        line.push(' ')?;
        line.push_str(&hex::encode(alloc, &record_bytes(rec))?)?;
    }
    Ok(line)
}

fn replies_text(alloc: Global, replies: &[AcceptedReply]) -> Result<String, NoAnswer> {
    let mut line = format!(in alloc; "{}", replies.len())?;
    for reply in replies {
        line.push(' ')?;
        line.push_str(&reply_text(alloc, reply)?)?;
    }
    Ok(line)
}

fn reply_text(alloc: Global, reply: &AcceptedReply) -> Result<String, NoAnswer> {
    let query = form_of(alloc, &reply.query)?;
    let digest = form_of(alloc, &digest_of(reply.bytes.as_slice()))?;
    Ok(format!(in alloc;
        "(accepted {} {} {query} {digest})",
        reply.client, reply.version
    )?)
}
