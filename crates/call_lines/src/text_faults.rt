//! The written form of what is read of a text: the value, or the text's first fault.
use line_pieces::{WriteForm, describe, word};
use sql_text::SqlFault;
use std::alloc::Global;
use std::io;

/// The value that a text has, or why it has none. It is let go of here, so that how is spelled out
/// for no type of value.
pub fn describe_read<T: WriteForm + Drop>(
    alloc: Global,
    read: Result<T, SqlFault>,
) -> io::Result<String> {
    match read {
        Ok(value) => describe(alloc, &value),
        Err(fault) => describe_fault(alloc, fault),
    }
}

/// A fault of a text, with its place where it has one.
pub fn describe_fault(alloc: Global, fault: SqlFault) -> io::Result<String> {
    match fault {
        SqlFault::TooLong => word(alloc, "TooLong"),
        SqlFault::Token { at } => Ok(format!(in alloc; "(Token {at})")?),
        SqlFault::Syntax { at } => Ok(format!(in alloc; "(Syntax {at})")?),
        SqlFault::Literal { at } => Ok(format!(in alloc; "(Literal {at})")?),
        SqlFault::Nesting => word(alloc, "Nesting"),
        SqlFault::Name => word(alloc, "Name"),
        SqlFault::TooMany => word(alloc, "TooMany"),
        SqlFault::Memory => word(alloc, "Memory"),
    }
}
