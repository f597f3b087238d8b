//! The parties that stand behind the same batches: an owner that has roots alone, with the entries
//! that it has written, and a store.
ghost use Rattle.std.specs.Prelude.{IfOk, []};
ghost use Rattle.workload_run.specs.Parties.{StandBehind};

use crate::requests::install;
use lms_sign::SecretKey;
use owner_state::Owner;
use std::alloc::{AllocError, Global};
use vo_spec::Entry;
use vo_store::Store;
use vo_store::laws::{owners_follow_stores, stores_stay_honest};

#[derive(Drop)]
pub(crate) struct Parties {
    pub owner: Owner,
    pub entries: Vec<Entry>,
    pub store: Store,
}

/// The parties behind version 0, which has no tables.
pub(crate) fn begin(alloc: Global, key: &SecretKey) -> Result<Parties, AllocError>
    ensures { IfOk result (StandBehind key.now []) }
{
    stores_stay_honest();
    owners_follow_stores();
    let (owner, first) = Owner::start(alloc, key)?;
    let mut store = Store::new(alloc, key.public())?;
    install(alloc, &mut store, &first)?;
    Ok(Parties {
        owner,
        entries: vec![in alloc; first]?,
        store,
    })
}
