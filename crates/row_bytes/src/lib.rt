//! Values and keys as bytes, both ways, and the cursor that all readers of bytes use.
#![tactic(auto)]

mod byte_sink;
mod columns;
mod cursor;
mod fault;
mod fields;
mod keys;
mod read_fault;
mod reading;
mod text;
mod writing;

pub use byte_sink::ByteSink;
pub use columns::{take_columns, take_count, take_kind};
pub use cursor::Cursor;
pub use fault::FormFault;
pub use keys::{is_key_of, key_of, read_key};
pub use read_fault::ReadFault;
pub use reading::take_value;
pub use vo_spec::{Bound, Interval, Key, Kind, List, Name, Row, Text, Value, ValueRef};
pub use writing::{put_value, put_value_ref, write_value};
