//! The written forms of values, of names and keys, and of rows.
use crate::form::{WriteForm, end_form, put_argument, start_form, write_bytes};
use std::alloc::{AllocError, Global};
use vo_spec::{Digest, Key, Kind, List, Name, Row, SeenRow, Text, Value, ValueRef};

impl WriteForm for Name {
    fn write_form(&self, alloc: Global, out: &mut String) -> Result<(), AllocError> {
        write_bytes(alloc, out, self.as_bytes())
    }
}

impl WriteForm for Text {
    fn write_form(&self, alloc: Global, out: &mut String) -> Result<(), AllocError> {
        write_bytes(alloc, out, self.as_bytes())
    }
}

impl WriteForm for Key {
    fn write_form(&self, alloc: Global, out: &mut String) -> Result<(), AllocError> {
        write_bytes(alloc, out, self.as_bytes())
    }
}

impl WriteForm for Digest {
    fn write_form(&self, alloc: Global, out: &mut String) -> Result<(), AllocError> {
        write_bytes(alloc, out, self.as_bytes())
    }
}

impl WriteForm for Kind {
    fn write_form(&self, _alloc: Global, out: &mut String) -> Result<(), AllocError> {
        Ok(out.push_str(match self {
            Kind::Int => "int",
            Kind::Text => "text",
            Kind::Bool => "bool",
        })?)
    }
}

impl WriteForm for ValueRef<'_> {
    fn write_form(&self, alloc: Global, out: &mut String) -> Result<(), AllocError> {
        match self {
            ValueRef::Null => Ok(out.push_str("null")?),
            ValueRef::Int(number) => write_int(alloc, out, *number),
            ValueRef::Text(bytes) => write_text(alloc, out, bytes),
            ValueRef::Bool(truth) => truth.write_form(alloc, out),
        }
    }
}

impl WriteForm for Value {
    fn write_form(&self, alloc: Global, out: &mut String) -> Result<(), AllocError> {
        self.as_ref().write_form(alloc, out)
    }
}

fn write_int(alloc: Global, out: &mut String, number: i64) -> Result<(), AllocError> {
    start_form(out, "int")?;
    put_argument(alloc, out, &number)?;
    end_form(out)
}

fn write_text(alloc: Global, out: &mut String, bytes: &[u8]) -> Result<(), AllocError> {
    start_form(out, "text")?;
    out.push(' ')?;
    write_bytes(alloc, out, bytes)?;
    end_form(out)
}

impl WriteForm for Row {
    fn write_form(&self, alloc: Global, out: &mut String) -> Result<(), AllocError> {
        write_row(alloc, out, &self.key, &self.cells)
    }
}

impl WriteForm for SeenRow {
    fn write_form(&self, alloc: Global, out: &mut String) -> Result<(), AllocError> {
        write_row(alloc, out, &self.key, &self.values)
    }
}

fn write_row(
    alloc: Global,
    out: &mut String,
    key: &Key,
    values: &List<Value>,
) -> Result<(), AllocError> {
    start_form(out, "row")?;
    put_argument(alloc, out, key)?;
    put_argument(alloc, out, values)?;
    end_form(out)
}
