//! The written form of what a query needs of a tree.
use crate::form::{WriteForm, end_form, put_argument, start_form};
use std::alloc::{AllocError, Global};
use vo_spec::{Bound, Key, Need};

impl WriteForm for Bound {
    fn write_form(&self, alloc: Global, out: &mut String) -> Result<(), AllocError> {
        match self {
            Bound::Absent => Ok(out.push_str("absent")?),
            Bound::Inclusive(key) => write_bound(alloc, out, "inclusive", key),
            Bound::Exclusive(key) => write_bound(alloc, out, "exclusive", key),
        }
    }
}

fn write_bound(alloc: Global, out: &mut String, word: &str, key: &Key) -> Result<(), AllocError> {
    start_form(out, word)?;
    put_argument(alloc, out, key)?;
    end_form(out)
}

impl WriteForm for Need {
    fn write_form(&self, alloc: Global, out: &mut String) -> Result<(), AllocError> {
        start_form(out, "need")?;
        put_argument(alloc, out, &self.interval.low)?;
        put_argument(alloc, out, &self.interval.high)?;
        put_argument(alloc, out, &self.columns)?;
        end_form(out)
    }
}
