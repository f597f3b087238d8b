//! What explains a signature, in its written form.
use line_pieces::{NoAnswer, form_of};
use lms_forge::{Explanation, explain};
use lms_sign::{SecretKey, verify};
use std::alloc::Global;
use version_record::{read_record, record_bytes};
use vo_spec::Record;

const RECORD_LEN: usize = 60;

/// What explains a signature of a record, where these records were signed.
pub fn explanation_text(
    alloc: Global,
    key: &SecretKey,
    signed: &[u8],
    record: &[u8],
    signature: &[u8],
) -> Result<String, NoAnswer> {
    let signed = records_in(alloc, signed)?;
    let rec = record_in(record)?;
    let found = explanation_of(alloc, key, &signed, &rec, signature)?;
    let text = text_of(alloc, &found);
    drop(found);
    text
}

fn record_in(bytes: &[u8]) -> Result<Record, NoAnswer> {
    read_record(bytes).ok_or(NoAnswer::NoSuchLine)
}

fn records_in(alloc: Global, bytes: &[u8]) -> Result<Vec<Record>, NoAnswer> {
    let mut records = Vec::new(alloc);
    for piece in bytes.chunks(RECORD_LEN) {
        records.push(record_in(piece)?)?;
    }
    Ok(records)
}

/// What explains it, if it is one of which that may be asked.
fn explanation_of(
    alloc: Global,
    key: &SecretKey,
    signed: &[Record],
    rec: &Record,
    signature: &[u8],
) -> Result<Explanation, NoAnswer> {
    let public = key.public();
    let is_valid = verify(&public, &record_bytes(rec), signature);
    let is_by_its_leaf = public.leaf_of(signature) == Some(rec.version);
    if !is_valid || !is_by_its_leaf || signed.contains(rec) {
        return Err(NoAnswer::NoSuchLine);
    }
    Ok(explain(alloc, key, signed, rec, signature)?)
}

fn text_of(alloc: Global, found: &Explanation) -> Result<String, NoAnswer> {
    match found {
        Explanation::Collides(found) => {
            let first = hex::encode(alloc, found.first())?;
            let second = hex::encode(alloc, found.second())?;
            Ok(format!(in alloc; "(collides 0x{first} 0x{second})")?)
        }
        Explanation::Chain {
            level,
            leaf,
            chain,
            step,
            bytes,
        } => {
            let bytes = form_of(alloc, bytes)?;
            Ok(format!(in alloc; "(chain {level} {leaf} {chain} {step} {bytes})")?)
        }
    }
}
