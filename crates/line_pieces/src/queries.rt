//! The written forms of queries, and of what they give.
use crate::form::{WriteForm, end_form, put_argument, start_form, write_with_one, write_with_two};
use std::alloc::{AllocError, Global};
use vo_spec::{Items, Join, Outcome, QueryFault, QueryText, Ref, Source};

impl WriteForm for Ref {
    fn write_form(&self, alloc: Global, out: &mut String) -> Result<(), AllocError> {
        start_form(out, "ref")?;
        put_argument(alloc, out, &self.qualifier)?;
        put_argument(alloc, out, &self.column)?;
        end_form(out)
    }
}

impl WriteForm for Source {
    fn write_form(&self, alloc: Global, out: &mut String) -> Result<(), AllocError> {
        start_form(out, "source")?;
        put_argument(alloc, out, &self.table)?;
        put_argument(alloc, out, &self.alias)?;
        end_form(out)
    }
}

impl WriteForm for Join {
    fn write_form(&self, alloc: Global, out: &mut String) -> Result<(), AllocError> {
        start_form(out, "join")?;
        put_argument(alloc, out, &self.right)?;
        put_argument(alloc, out, &self.left_ref)?;
        put_argument(alloc, out, &self.right_ref)?;
        end_form(out)
    }
}

impl WriteForm for Items {
    fn write_form(&self, alloc: Global, out: &mut String) -> Result<(), AllocError> {
        match self {
            Items::All => Ok(out.push_str("all")?),
            Items::Refs(refs) => refs.write_form(alloc, out),
        }
    }
}

impl WriteForm for QueryText {
    fn write_form(&self, alloc: Global, out: &mut String) -> Result<(), AllocError> {
        start_form(out, "query")?;
        put_argument(alloc, out, &self.items)?;
        put_argument(alloc, out, &self.left)?;
        put_argument(alloc, out, &self.join)?;
        put_argument(alloc, out, &self.cond)?;
        if let Some(rows) = self.limit {
            put_argument(alloc, out, &u64::from(rows))?;
        }
        end_form(out)
    }
}

impl WriteForm for QueryFault {
    fn write_form(&self, alloc: Global, out: &mut String) -> Result<(), AllocError> {
        start_form(out, "wrong")?;
        out.push(' ')?;
        match self {
            QueryFault::NoTable(name) => write_with_one(alloc, out, "NoTable", name)?,
            QueryFault::NoColumn(name) => write_with_one(alloc, out, "NoColumn", name)?,
            QueryFault::Ambiguous(name) => write_with_one(alloc, out, "Ambiguous", name)?,
            QueryFault::TypeMismatch => out.push_str("TypeMismatch")?,
            QueryFault::NotKeyJoin => out.push_str("NotKeyJoin")?,
        }
        end_form(out)
    }
}

impl WriteForm for Outcome {
    fn write_form(&self, alloc: Global, out: &mut String) -> Result<(), AllocError> {
        match self {
            Outcome::Rows { header, rows } => write_with_two(alloc, out, "rows", header, rows),
            Outcome::Wrong(fault) => fault.write_form(alloc, out),
        }
    }
}
