//! A store: the tables of the version that is installed, those of the last versions before it, and
//! those of the version that is proposed.
use crate::answering::{answer_by_kept, answer_by_tables, oldest_version};
use crate::fault::StoreFault;
use crate::installing::{keep_installed, next_version, signed_record};
use crate::kept_version::KeptVersion;
use crate::proposing::{Proposal, propose_batch};
use crate::signed_record::SignedRecord;
use lms_sign::PublicKey;
use std::alloc::{AllocError, Global};
use std::marker::Model;
use stored_tables::StoredTables;
use vo_spec::{Batch, QueryText, Record};

/// A store of an owner's tables, which contracts see as its state (`StoreState`).
#[derive(Drop)]
pub struct Store {
    pub(crate) key: PublicKey,
    /// The versions before the installed one that are kept, oldest first.
    earlier: Vec<KeptVersion>,
    installed: Option<SignedRecord>,
    pub(crate) tables: StoredTables,
    pending: Option<StoredTables>,
}

impl Model for Store {
    ghost use Rattle.vo_store.specs.Codes.{coded_store};
    ghost use Rattle.vo_store.specs.StoreState.{StoreState};
    ghost use Rattle.vo_store.specs.HonestStores.{IsHonestStore};

    ghost Value = { StoreState };

    ghost coded = { coded_store };

    ghost view = { λ store. record {
      key = store.key;
      earlier = store.earlier.items;
      installed = store.installed;
      tables = store.tables;
      pending = store.pending;
    } };

    ghost invariant = { λ store. IsHonestStore (record {
      key = store.key;
      earlier = store.earlier.items;
      installed = store.installed;
      tables = store.tables;
      pending = store.pending;
    }) };
}

impl Store {
    ghost use Rattle.std.specs.Prelude.{◌≡◌, IfOk, OnErr, OnOk, option_map};
    ghost use Rattle.vo_spec.specs.Batches.{FitsBatch};
    ghost use Rattle.vo_spec.specs.Conditions.{query_of};
    ghost use Rattle.vo_store.specs.StoreState.{new_store, with_installed};
    ghost use Rattle.vo_store.specs.Calls.{FitProofs, Gives, answer_at_of, answer_of, install_of, proposal_of};
    ghost use Rattle.vo_store.specs.HonestStores.{IsHonestStore};

    /// A store of the key that has installed nothing: version 0, which has no tables, is proposed.
    pub fn new(alloc: Global, key: PublicKey) -> Result<Store, AllocError>
        ensures { IfOk result (λ store. store ≡ new_store key) }
    {
        Ok(Store {
            key,
            earlier: Vec::new(alloc),
            installed: None,
            tables: StoredTables::new(alloc),
            pending: Some(StoredTables::new(alloc)),
        })
    }

    /// Proposes the next version, of this batch, in the place of one that was proposed before, and
    /// gives the batch's proofs as bytes.
    pub fn propose(&mut self, alloc: Global, batch: &Batch) -> Result<Vec<u8>, StoreFault>
        requires { FitsBatch batch.now.commands }
        ensures answer { Gives (λ proofs. (self.new, proofs.items)) result
            (proposal_of self.old batch.now.commands) }
        ensures left { OnErr result (self.new ≡ self.old) }
        ensures fits { FitProofs result }
    {
        if self.installed.is_none() {
            return Err(StoreFault::Empty);
        }
        match propose_batch(alloc, &self.tables, batch) {
            Ok(Proposal { after, proofs }) => {
                self.pending = Some(after);
                Ok(proofs)
            }
            Err(fault) => Err(fault),
        }
    }

    /// Installs the version that is proposed, if this is its record, signed.
    pub fn install(
        &mut self,
        alloc: Global,
        rec: &Record,
        signature: &[u8],
    ) -> Result<(), StoreFault>
        ensures answer { Gives (λ _. self.new) result
            (install_of self.old rec.now signature.now) }
        ensures left { OnErr result (self.new ≡ self.old) }
    {
        let after = match &self.pending {
            Some(after) => after.share(alloc)?,
            None => return Err(StoreFault::NothingProposed),
        };
        let version = next_version(&self.installed);
        match signed_record(alloc, &self.key, version, &after, rec, signature) {
            Ok(installed) => Ok(self.install_version(alloc, installed, after)?),
            Err(fault) => Err(fault),
        }
    }

    /// Installs a version. That which was installed is kept.
    pub(crate) fn install_version(
        &mut self,
        alloc: Global,
        installed: SignedRecord,
        tables: StoredTables,
    ) -> Result<(), AllocError>
        requires { IsHonestStore (with_installed installed tables self.old) }
        ensures done { OnOk result (self.new ≡ with_installed installed tables self.old) }
        ensures left { OnErr result (self.new ≡ self.old) }
    {
        keep_installed(alloc, &self.installed, &self.tables, &mut self.earlier)?;
        self.installed = Some(installed);
        self.tables = tables;
        self.pending = None;
        Ok(())
    }

    /// The reply to the query, as bytes, by the version that is installed.
    pub fn answer(&self, alloc: Global, query: &QueryText) -> Result<Vec<u8>, StoreFault>
        ensures { Gives (λ bytes. bytes.items) result (answer_of self.now (query_of query.now)) }
    {
        match &self.installed {
            Some(installed) => answer_by_tables(alloc, installed, &self.tables, query),
            None => Err(StoreFault::Empty),
        }
    }

    /// The reply to the query, as bytes, by a version that is kept.
    pub fn answer_at(
        &self,
        alloc: Global,
        version: u64,
        query: &QueryText,
    ) -> Result<Vec<u8>, StoreFault>
        ensures { Gives (λ bytes. bytes.items) result
            (answer_at_of self.now version (query_of query.now)) }
    {
        match &self.installed {
            Some(installed) => {
                let newest = installed.rec.version;
                let oldest = oldest_version(newest);
                if version < oldest || newest < version {
                    return Err(StoreFault::NoVersion {
                        version,
                        oldest,
                        newest,
                    });
                }
                let place = (version - oldest) as usize;
                answer_by_kept(alloc, &self.earlier, installed, &self.tables, place, query)
            }
            None => Err(StoreFault::Empty),
        }
    }

    /// The version that is installed, if one is.
    pub fn version(&self) -> Option<u64>
        ensures { result ≡ option_map (λ installed. installed.rec.version) self.now.installed }
    {
        match &self.installed {
            Some(installed) => Some(installed.rec.version),
            None => None,
        }
    }

    /// The record of the version that is installed, if one is.
    pub fn standing(&self) -> Option<Record>
        ensures value { result ≡ option_map (λ installed. installed.rec) self.now.installed }
        ensures honest { IsHonestStore self.now }
    {
        match &self.installed {
            Some(installed) => Some(installed.rec),
            None => None,
        }
    }
}
