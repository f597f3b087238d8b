//! A store that takes the entries of a journal.
ghost use Rattle.std.specs.Prelude.{◌≡◌, ℕ, Ok, Err, IfOk};
ghost use Rattle.std.specs.List.{AllByRecursion};
ghost use Rattle.vo_spec.specs.Journals.{FitsEntry};
ghost use Rattle.vo_spec.specs.Owners.{AreLoadable};
ghost use Rattle.owner_state.specs.Walking.{StopsAt};
ghost use Rattle.vo_store.specs.Loading.{TakesEntry, load_entries, store_behind};

use crate::fault::LoadFault;
use crate::signed_record::SignedRecord;
use crate::store::Store;
use lms_sign::PublicKey;
use owner_state::{LentEntry, check_next_of_store};
use std::alloc::{AllocError, Global};

impl Store {
    /// A store of the key that has taken these entries, from entry 0 on: of it the record is
    /// installed, of each later one the batch is proposed and then the record installed. Entry 0's
    /// batch and the entries' proofs are not looked at.
    pub fn load(
        alloc: Global,
        key: PublicKey,
        entries: &[LentEntry<'_>],
    ) -> Result<Store, LoadFault>
        requires { AllByRecursion FitsEntry entries.now }
        // by the store's calls
        ensures loaded { IfOk result (λ store. load_entries key entries.now ≡ Ok store) }
        ensures refused { (index : ℕ) → result ≡ Err (LoadFault.Entry index)
            → load_entries key entries.now ≡ Err index }
        // and by what entries a store takes
        ensures taken { IfOk result (λ _. AreLoadable key entries.now) }
        ensures state { IfOk result (λ store. store ≡ store_behind key entries.now) }
        ensures stops { (index : ℕ) → result ≡ Err (LoadFault.Entry index)
            → StopsAt (AreLoadable key) entries.now index }
    {
        let mut store = Store::new(alloc, key)?;
        for (index, entry) in entries.iter().enumerate() {
            if !store.take_entry(alloc, &entries[..index], entry)? {
                let index = index as u64;
                return Err(LoadFault::Entry { index });
            }
        }
        Ok(store)
    }

    /// Installs the version of an entry, if a store takes it behind those before.
    fn take_entry(
        &mut self,
        alloc: Global,
        earlier: &[LentEntry<'_>],
        entry: &LentEntry<'_>,
    ) -> Result<bool, AllocError>
        requires earlier_fit { AllByRecursion FitsEntry earlier.now }
        requires fits { FitsEntry entry.now }
        requires taken { AreLoadable self.old.key earlier.now }
        requires behind { self.old ≡ store_behind self.old.key earlier.now }
        ensures { IfOk result (TakesEntry self.old.key earlier.now entry.now self.new) }
    {
        let tables = self.tables.share(alloc)?;
        match check_next_of_store(alloc, &self.key, earlier, tables, entry)? {
            Some(after) => {
                let installed = SignedRecord::new(alloc, entry.rec(), entry.signature())?;
                self.install_version(alloc, installed, after)?;
                Ok(true)
            }
            None => Ok(false),
        }
    }
}
