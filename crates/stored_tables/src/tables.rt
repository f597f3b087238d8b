//! The tables of an owner or a store.
ghost use Rattle.std.specs.Prelude.{◌≡◌, [], IfSome, IfOk, OnOk, OnErr, Ok, None, map, find, bytes_eq, option_map};
ghost use Rattle.std.specs.List.{AllByRecursion};
ghost use Rattle.vo_spec.specs.Tables.{apply_batch as apply_plain, refusal};
ghost use Rattle.vo_spec.specs.Batches.{FitsBatch, FitsCommand};
ghost use Rattle.vo_spec.specs.Fits.{FitsTree};
ghost use Rattle.vo_spec.specs.Records.{FitsCatalog, FitsRecord, record_of};
ghost use Rattle.vo_spec.specs.Honest.{RepresentTables, stored_table_header, work, work_all, command_proof, catalog_of};
ghost use Rattle.vo_laws.specs.FittingTables.{FitTables};
ghost use Rattle.table_list.specs.Changes.{Returns};
ghost use Rattle.table_list.specs.BatchResults.{BatchGives};
ghost use Rattle.stored_tables.specs.View.{lent_stored, proof_list, stored_in};
ghost use Rattle.stored_tables.specs.Representation.{IsStanding};
ghost use Rattle.stored_tables.specs.Working.{work_from};
ghost use Rattle.stored_tables.specs.Plain.{GivesPlain};

use crate::batches::{apply_batch, share_tables};
use crate::catalogs::{catalog_tables, record_of};
use crate::command_proofs::proof_of;
use crate::hashing::hash_tables;
use crate::plain::plain_tables;
use crate::positions::table_of;
use crate::refusing::fault_of;
use crate::table::StoredTable;
use crate::working::apply_command;
use mb_tree::PartTree;
use std::alloc::{AllocError, Global};
use std::marker::Model;
use std::rc::Rc;
use table_list::{ApplyFault, BatchFault, command_name};
use vo_spec::{Batch, Catalog, Command, CommandFault, List, Record, Table};

/// Tables, each as its whole tree, which contracts see as the list of them. Tables before and after
/// a command share what it leaves.
#[derive(Drop)]
pub struct StoredTables {
    tables: Vec<Rc<StoredTable>>,
}

impl Model for StoredTables {
    ghost use Rattle.std.specs.Prelude.{List};
    ghost use Rattle.vo_spec.specs.Honest.{Stored};
    ghost use Rattle.stored_tables.specs.Codes.{coded_tables};
    ghost use Rattle.stored_tables.specs.View.{stored_in};
    ghost use Rattle.stored_tables.specs.Representation.{IsStanding};

    ghost Value = { List Stored };

    ghost coded = { coded_tables };

    ghost view = { λ t. stored_in t.tables.items };

    ghost invariant = { λ t. IsStanding (stored_in t.tables.items) };
}

impl StoredTables {
    /// No tables.
    #[tactic(auto, using(crate::proofs::StandingLaws::nothing_standing))]
    pub fn new(alloc: Global) -> StoredTables
        ensures { result ≡ [] }
    {
        StoredTables {
            tables: Vec::new(alloc),
        }
    }

    /// The same tables once more. They are shared, not copied.
    pub fn share(&self, alloc: Global) -> Result<StoredTables, AllocError>
        ensures { IfOk result (λ copy. copy ≡ self.now) }
    {
        let tables = share_tables(alloc, self.tables.as_slice())?;
        Ok(StoredTables { tables })
    }

    /// The table of this name.
    pub fn find(&self, name: &[u8]) -> Option<&StoredTable>
        ensures found { option_map lent_stored result
            ≡ find (λ s. bytes_eq s.name name.now) self.now }
        ensures fits { IfSome result (λ table. FitsTree (lent_stored table).tree) }
    {
        table_of(self.tables.as_slice(), name)
    }

    /// Why a command is refused without a look at the rows.
    pub fn refusal(&self, command: &Command) -> Option<CommandFault>
        ensures { result ≡ refusal command.now (map stored_table_header self.now) }
    {
        fault_of(self.tables.as_slice(), command)
    }

    /// The part of its table's tree that a command looks at, if it looks at one.
    pub fn command_proof(
        &self,
        alloc: Global,
        command: &Command,
    ) -> Result<Option<PartTree<'_>>, AllocError>
        ensures honest { IfOk result
            (λ proof. proof_list proof ≡ command_proof command.now self.now) }
        ensures fits { IfOk result (λ proof. AllByRecursion FitsTree (proof_list proof)) }
    {
        proof_of(alloc, self.tables.as_slice(), command)
    }

    /// The tables after a command.
    pub fn apply(&self, alloc: Global, command: &Command) -> Result<StoredTables, ApplyFault>
        requires fits { FitsCommand command.now }
        ensures { Returns (λ new. new) result (work command.now self.now) }
    {
        let tables = apply_command(alloc, self.tables.as_slice(), command)?;
        let name = command_name(command);
        Ok(StoredTables {
            tables: hash_tables(alloc, &tables, Some(name))?,
        })
    }

    /// Applies the commands of a batch, all or none. A refused batch leaves the tables, and so does
    /// want of memory.
    pub fn apply_batch(&mut self, alloc: Global, batch: &Batch) -> Result<(), BatchFault>
        requires fits { FitsBatch batch.now.commands }
        ensures answer { BatchGives (λ _. self.new) result
            (work_from 0 batch.now.commands self.old) }
        ensures done { OnOk result (work_all batch.now.commands self.old ≡ Ok self.new) }
        ensures left { OnErr result (self.new ≡ self.old) }
        ensures plain { (tables : List Table) → RepresentTables self.old tables → FitTables tables
            → GivesPlain (λ _. self.new) result (apply_plain batch.now.commands tables) }
    {
        match apply_batch(alloc, self.tables.as_slice(), batch.commands.as_slice()) {
            Ok(tables) => {
                self.tables = tables;
                Ok(())
            },
            Err(fault) => Err(fault),
        }
    }

    /// What a record signs of the tables.
    pub fn catalog(&self, alloc: Global) -> Result<Catalog, AllocError>
        ensures value { IfOk result (λ catalog. catalog ≡ catalog_of self.now) }
        ensures fits { IfOk result (λ catalog. FitsCatalog catalog) }
    {
        Ok(Catalog {
            tables: List::from_vec(catalog_tables(alloc, self.tables.as_slice())?),
        })
    }

    /// The record of the tables as this version, under a key's identifier. It takes no memory.
    pub fn record_of(&self, id: [u8; 16], version: u64) -> Record
        ensures value { result ≡ record_of id version (catalog_of self.now) }
        ensures fits { FitsRecord result }
    {
        record_of(self.tables.as_slice(), id, version)
    }

    /// The plain tables for which the trees stand.
    pub fn tables(&self, alloc: Global) -> Result<List<Table>, AllocError>
        ensures stand { IfOk result (λ tables. RepresentTables self.now tables) }
        ensures fit { IfOk result (λ tables. FitTables tables) }
    {
        Ok(List::from_vec(plain_tables(alloc, self.tables.as_slice())?))
    }
}
