//! A table as its tree.
ghost use Rattle.std.specs.Prelude.{◌≡◌};
ghost use Rattle.vo_spec.specs.Honest.{stored_table_header};
ghost use Rattle.table_list.specs.TableHeaders.{table_header_seen};
ghost use Rattle.stored_tables.specs.View.{stored_of};

use mb_tree::Tree;
use std::rc::Rc;
use table_list::TableHeaderRef;
use vo_spec::{Name, Schema};

/// A table of rows, which its tree has. Its name and schema are shared by all that changes make of
/// it.
#[derive(Drop)]
pub struct StoredTable {
    pub name: Rc<Name>,
    pub schema: Rc<Schema>,
    pub tree: Tree,
}

impl StoredTable {
    pub(crate) fn table_header(&self) -> TableHeaderRef<'_>
        ensures { table_header_seen result ≡ stored_table_header (stored_of self.now) }
    {
        TableHeaderRef {
            name: self.name.as_bytes(),
            schema: &self.schema,
            count: self.tree.row_count(),
        }
    }
}
