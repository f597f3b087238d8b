//! The written forms of columns, commands and batches, and of what a catalog says of a table.
use crate::form::{WriteForm, end_form, put_argument, start_form};
use std::alloc::{AllocError, Global};
use vo_spec::{Batch, CatalogTable, Column, Command, List, Name, SetPart, Value};

impl WriteForm for Column {
    fn write_form(&self, alloc: Global, out: &mut String) -> Result<(), AllocError> {
        start_form(out, "column")?;
        put_argument(alloc, out, &self.name)?;
        put_argument(alloc, out, &self.kind)?;
        if self.nullable {
            out.push_str(" nullable")?;
        }
        end_form(out)
    }
}

impl WriteForm for SetPart {
    fn write_form(&self, alloc: Global, out: &mut String) -> Result<(), AllocError> {
        start_form(out, "set")?;
        put_argument(alloc, out, &self.column)?;
        put_argument(alloc, out, &self.value)?;
        end_form(out)
    }
}

impl WriteForm for Command {
    fn write_form(&self, alloc: Global, out: &mut String) -> Result<(), AllocError> {
        match self {
            Command::Create { name, columns, key } => {
                write_create(alloc, out, name, columns, key)
            }
            Command::Drop { name } => write_drop(alloc, out, name),
            Command::Insert { name, values } => write_insert(alloc, out, name, values),
            Command::Update {
                name,
                sets,
                column,
                value,
            } => write_update(alloc, out, name, sets, (column, value)),
            Command::Delete {
                name,
                column,
                value,
            } => write_delete(alloc, out, name, (column, value)),
        }
    }
}

fn write_create(
    alloc: Global,
    out: &mut String,
    name: &Name,
    columns: &List<Column>,
    key: &Name,
) -> Result<(), AllocError> {
    start_form(out, "create")?;
    put_argument(alloc, out, name)?;
    put_argument(alloc, out, columns)?;
    put_argument(alloc, out, key)?;
    end_form(out)
}

fn write_drop(alloc: Global, out: &mut String, name: &Name) -> Result<(), AllocError> {
    start_form(out, "drop")?;
    put_argument(alloc, out, name)?;
    end_form(out)
}

fn write_insert(
    alloc: Global,
    out: &mut String,
    name: &Name,
    values: &List<Value>,
) -> Result<(), AllocError> {
    start_form(out, "insert")?;
    put_argument(alloc, out, name)?;
    put_argument(alloc, out, values)?;
    end_form(out)
}

fn write_update(
    alloc: Global,
    out: &mut String,
    name: &Name,
    sets: &List<SetPart>,
    key: (&Name, &Value),
) -> Result<(), AllocError> {
    start_form(out, "update")?;
    put_argument(alloc, out, name)?;
    put_argument(alloc, out, sets)?;
    put_argument(alloc, out, key.0)?;
    put_argument(alloc, out, key.1)?;
    end_form(out)
}

fn write_delete(
    alloc: Global,
    out: &mut String,
    name: &Name,
    key: (&Name, &Value),
) -> Result<(), AllocError> {
    start_form(out, "delete")?;
    put_argument(alloc, out, name)?;
    put_argument(alloc, out, key.0)?;
    put_argument(alloc, out, key.1)?;
    end_form(out)
}

impl WriteForm for Batch {
    fn write_form(&self, alloc: Global, out: &mut String) -> Result<(), AllocError> {
        start_form(out, "batch")?;
        put_argument(alloc, out, &self.commands)?;
        end_form(out)
    }
}

/// Its name, its number of rows and its root.
impl WriteForm for CatalogTable {
    fn write_form(&self, alloc: Global, out: &mut String) -> Result<(), AllocError> {
        start_form(out, "table")?;
        put_argument(alloc, out, &self.name)?;
        put_argument(alloc, out, &self.rows)?;
        put_argument(alloc, out, &self.root)?;
        end_form(out)
    }
}
