//! Calls of catalogs and records.
ghost use Rattle.vo_spec.specs.Records.{FitsCatalog};

use line_pieces::NoAnswer;
use std::alloc::Global;
use version_record::{
    Catalog, ReadFault, catalog_bytes, catalog_digest, read_catalog, read_record, record_bytes,
};

/// What is said of bytes that are not read.
pub fn read_fault(alloc: Global, fault: ReadFault) -> Result<String, NoAnswer> {
    match fault {
        ReadFault::BadForm => Ok("BadForm".to_string(alloc)?),
        ReadFault::Memory => Err(NoAnswer::Memory),
    }
}

/// A catalog's digest, and its bytes again.
pub fn catalog(alloc: Global, strings: &[Vec<u8>]) -> Result<String, NoAnswer> {
    let [bytes] = strings else {
        return Err(NoAnswer::NoSuchLine);
    };
    match read_catalog(alloc, bytes) {
        Ok(catalog) => last_catalog_text(alloc, catalog),
        Err(fault) => read_fault(alloc, fault),
    }
}

/// A catalog's digest and its bytes.
pub fn catalog_text(alloc: Global, catalog: &Catalog) -> Result<String, NoAnswer>
    requires { FitsCatalog catalog.now }
{
    let digest = catalog_digest(catalog);
    let digest = hex::encode(alloc, digest.as_bytes())?;
    let bytes = hex::encode(alloc, catalog_bytes(alloc, catalog)?)?;
    Ok(format!(in alloc; "{digest} {bytes}")?)
}

/// The same of one that is let go of.
pub fn last_catalog_text(alloc: Global, catalog: Catalog) -> Result<String, NoAnswer>
    requires { FitsCatalog catalog }
{
    let text = catalog_text(alloc, &catalog);
    drop(catalog);
    text
}

/// A record's version and catalog, and its bytes again.
pub fn record(alloc: Global, strings: &[Vec<u8>]) -> Result<String, NoAnswer> {
    let [bytes] = strings else {
        return Err(NoAnswer::NoSuchLine);
    };
    let Some(rec) = read_record(bytes) else {
        return Ok("none".to_string(alloc)?);
    };
    let catalog = hex::encode(alloc, rec.catalog.as_bytes())?;
    let bytes = hex::encode(alloc, &record_bytes(&rec))?;
    Ok(format!(in alloc; "{} {catalog} {bytes}", rec.version)?)
}
