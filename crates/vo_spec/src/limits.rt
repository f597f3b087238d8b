//! The limits of tables and of formats. The definitions have each under the same name in small
//! letters.

/// Bytes of a name.
pub const MAX_NAME: usize = 63;

/// Bytes of a text.
pub const MAX_TEXT: usize = 1_024;

/// Bytes of a stored key, and of a separator.
pub const MAX_KEY: usize = 255;

/// Columns of a table.
pub const MAX_COLUMNS: usize = 32;

/// Cells of a row: one for each column but the key.
pub const MAX_CELLS: usize = 31;

/// Tables of a catalog.
pub const MAX_TABLES: usize = 64;

/// Rows of a table.
pub const MAX_ROWS: u64 = 4_294_967_295;

/// Commands of a batch.
pub const MAX_COMMANDS: usize = 1_000;

/// Bytes of a batch.
pub const MAX_BATCH_BYTES: usize = 1_048_576;

/// Entries or children of a node.
pub const MAX_FILL: usize = 16;

/// Entries or children of a node other than the root, at least; and how many of 17 go left.
pub const MIN_FILL: usize = 8;

/// Levels of a tree's bytes.
pub const MAX_LEVELS: usize = 11;

/// Bytes of a catalog: the number of its tables, and as many tables as may be, each with the longest
/// name, as many columns as may be of the longest names, its key column, its rows and its root.
pub const MAX_CATALOG: usize = 2
    + MAX_TABLES * (1 + MAX_NAME + 1 + MAX_COLUMNS * (1 + MAX_NAME + 1) + 1 + 8 + 32);

/// Bytes of a batch's proofs.
pub const MAX_PROOFS: usize = 134_217_728;

/// Bytes of a signature.
pub const MAX_SIGNATURE: usize = 65_536;

/// Bytes of a reply.
pub const MAX_REPLY: usize = 67_108_864;
