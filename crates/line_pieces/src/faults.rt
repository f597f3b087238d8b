//! The words of faults.
use crate::form::{WriteForm, write_with_two};
use row_bytes::{FormFault, ReadFault};
use std::alloc::{AllocError, Global};
use table_list::{ApplyFault, BatchFault};
use vo_spec::{CommandFault, ScanFault, UpdateFault};

impl WriteForm for CommandFault {
    fn write_form(&self, _alloc: Global, out: &mut String) -> Result<(), AllocError> {
        Ok(out.push_str(match self {
            CommandFault::TableExists => "TableExists",
            CommandFault::NoTable => "NoTable",
            CommandFault::BadSchema => "BadSchema",
            CommandFault::Arity => "Arity",
            CommandFault::TypeMismatch => "TypeMismatch",
            CommandFault::DuplicateKey => "DuplicateKey",
            CommandFault::NoRow => "NoRow",
            CommandFault::TableFull => "TableFull",
            CommandFault::TooManyTables => "TooManyTables",
            CommandFault::KeyTooLong => "KeyTooLong",
            CommandFault::NoColumn => "NoColumn",
            CommandFault::NotKey => "NotKey",
            CommandFault::BadSet => "BadSet",
            CommandFault::NotNull => "NotNull",
        })?)
    }
}

impl WriteForm for ApplyFault {
    fn write_form(&self, alloc: Global, out: &mut String) -> Result<(), AllocError> {
        match self {
            ApplyFault::Refused(fault) => fault.write_form(alloc, out),
            ApplyFault::Memory => Ok(out.push_str("Memory")?),
        }
    }
}

impl WriteForm for BatchFault {
    fn write_form(&self, alloc: Global, out: &mut String) -> Result<(), AllocError> {
        match self {
            BatchFault::Command { index, fault } => {
                write_with_two(alloc, out, "Command", index, fault)
            }
            BatchFault::Memory => Ok(out.push_str("Memory")?),
        }
    }
}

impl WriteForm for ReadFault {
    fn write_form(&self, _alloc: Global, out: &mut String) -> Result<(), AllocError> {
        Ok(out.push_str(match self {
            ReadFault::BadForm => "BadForm",
            ReadFault::Memory => "Memory",
        })?)
    }
}

impl WriteForm for FormFault {
    fn write_form(&self, _alloc: Global, out: &mut String) -> Result<(), AllocError> {
        Ok(out.push_str(match self {
            FormFault::Short => "Short",
            FormFault::Tag => "Tag",
            FormFault::Length => "Length",
            FormFault::NotUtf8 => "NotUtf8",
            FormFault::Control => "Control",
        })?)
    }
}

impl WriteForm for ScanFault {
    fn write_form(&self, _alloc: Global, out: &mut String) -> Result<(), AllocError> {
        Ok(out.push_str(match self {
            ScanFault::Missing => "Missing",
            ScanFault::Memory => "Memory",
        })?)
    }
}

impl WriteForm for UpdateFault {
    fn write_form(&self, _alloc: Global, out: &mut String) -> Result<(), AllocError> {
        Ok(out.push_str(match self {
            UpdateFault::DuplicateKey => "DuplicateKey",
            UpdateFault::NoRow => "NoRow",
            UpdateFault::Missing => "Missing",
            UpdateFault::Memory => "Memory",
        })?)
    }
}
