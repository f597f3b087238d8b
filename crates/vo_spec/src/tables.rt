//! Plain tables, and the commands that change them.
use crate::lists::List;
use crate::texts::Name;
use crate::values::{Kind, Row, Value};
use thiserror::Error;

#[derive(Debug, Drop)]
pub struct Column {
    pub name: Name,
    pub kind: Kind,
    /// Whether it may be NULL.
    pub nullable: bool,
}

/// The columns of a table, and the number of the one that is its key.
#[derive(Debug, Drop)]
pub struct Schema {
    pub columns: List<Column>,
    pub key: u8,
}

/// A table: rows whose keys strictly rise.
#[derive(Debug, Drop)]
pub struct Table {
    pub name: Name,
    pub schema: Schema,
    pub rows: List<Row>,
}

/// One part of an UPDATE's SET.
#[derive(Debug, Drop)]
pub struct SetPart {
    pub column: Name,
    pub value: Value,
}

#[derive(Debug, Drop)]
pub enum Command {
    Create {
        name: Name,
        columns: List<Column>,
        key: Name,
    },
    Drop {
        name: Name,
    },
    Insert {
        name: Name,
        values: List<Value>,
    },
    Update {
        name: Name,
        sets: List<SetPart>,
        column: Name,
        value: Value,
    },
    Delete {
        name: Name,
        column: Name,
        value: Value,
    },
}

/// Commands that take effect together or not at all.
#[derive(Debug, Drop)]
pub struct Batch {
    pub commands: List<Command>,
}

/// Why a command is refused.
#[derive(Clone, Copy, PartialEq, Eq, Debug, Error)]
pub enum CommandFault {
    #[error("a table of this name is there")]
    TableExists,
    #[error("no such table")]
    NoTable,
    #[error("a schema with a column twice, or with no key")]
    BadSchema,
    #[error("another number of values than of columns")]
    Arity,
    #[error("a value of another kind than its column")]
    TypeMismatch,
    #[error("a row of this key is there")]
    DuplicateKey,
    #[error("no row of this key")]
    NoRow,
    #[error("the table is full")]
    TableFull,
    #[error("too many tables")]
    TooManyTables,
    #[error("a key of more than 255 bytes")]
    KeyTooLong,
    #[error("no such column")]
    NoColumn,
    #[error("the condition is not on the key")]
    NotKey,
    #[error("the key is set, or a column twice")]
    BadSet,
    #[error("NULL for the key or for a column that is not nullable")]
    NotNull,
}
