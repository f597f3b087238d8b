//! The written forms of what clients say of replies: answers, and faults with what the client goes by
//! and what the reply has.
use crate::form::{
    WriteForm, end_form, put_argument, start_form, write_bytes, write_with_one, write_with_two,
};
use std::alloc::{AllocError, Global};
use vo_spec::{Answer, CheckFault, Digest, Name};

impl WriteForm for Answer {
    fn write_form(&self, alloc: Global, out: &mut String) -> Result<(), AllocError> {
        write_with_two(alloc, out, "answer", &self.version, &self.outcome)
    }
}

impl WriteForm for CheckFault {
    fn write_form(&self, alloc: Global, out: &mut String) -> Result<(), AllocError> {
        match self {
            CheckFault::TooLong { length } => write_with_one(alloc, out, "TooLong", length),
            CheckFault::BadForm => Ok(out.push_str("BadForm")?),
            CheckFault::WrongKey { want, got } => write_with_two(alloc, out, "WrongKey", want, got),
            CheckFault::WrongLeaf { version, q } => {
                write_with_two(alloc, out, "WrongLeaf", version, q)
            }
            CheckFault::BadSignature => Ok(out.push_str("BadSignature")?),
            CheckFault::Stale { least, got } => write_with_two(alloc, out, "Stale", least, got),
            CheckFault::WrongCatalog { want, got } => {
                write_with_two(alloc, out, "WrongCatalog", want, got)
            }
            CheckFault::WrongTrees { want, got } => {
                write_with_two(alloc, out, "WrongTrees", want, got)
            }
            CheckFault::WrongShape => Ok(out.push_str("WrongShape")?),
            CheckFault::WrongRoot { table, want, got } => write_roots(alloc, out, table, want, got),
            CheckFault::Missing => Ok(out.push_str("Missing")?),
            CheckFault::Surplus => Ok(out.push_str("Surplus")?),
            CheckFault::Memory => Ok(out.push_str("Memory")?),
        }
    }
}

/// A key's identifier.
impl WriteForm for [u8; 16] {
    fn write_form(&self, alloc: Global, out: &mut String) -> Result<(), AllocError> {
        write_bytes(alloc, out, self)
    }
}

fn write_roots(
    alloc: Global,
    out: &mut String,
    table: &Name,
    want: &Digest,
    got: &Digest,
) -> Result<(), AllocError> {
    start_form(out, "WrongRoot")?;
    put_argument(alloc, out, table)?;
    put_argument(alloc, out, want)?;
    put_argument(alloc, out, got)?;
    end_form(out)
}
