//! The form in which answers are written: a word, or a word with its arguments.
//!
//! As `(insert 0x74 [(int 3)])`: byte strings in hexadecimal, lists in brackets. A field that is
//! renamed leaves an answer as it is.
use std::alloc::{AllocError, Global};
use vo_spec::{List, SharedList};

/// What has a written form.
pub trait WriteForm {
    /// Writes it at the end of `out`.
    fn write_form(&self, alloc: Global, out: &mut String) -> Result<(), AllocError>;
}

/// Writes a word whose arguments follow.
pub fn start_form(out: &mut String, word: &str) -> Result<(), AllocError> {
    out.push('(')?;
    out.push_str(word)?;
    Ok(())
}

/// Writes an argument of the word that was started last.
pub fn put_argument<T: WriteForm>(
    alloc: Global,
    out: &mut String,
    argument: &T,
) -> Result<(), AllocError> {
    out.push(' ')?;
    argument.write_form(alloc, out)
}

/// Ends the arguments of a word.
pub fn end_form(out: &mut String) -> Result<(), AllocError> {
    out.push(')')?;
    Ok(())
}

/// Writes a word with one argument.
pub fn write_with_one<T: WriteForm>(
    alloc: Global,
    out: &mut String,
    word: &str,
    argument: &T,
) -> Result<(), AllocError> {
    start_form(out, word)?;
    put_argument(alloc, out, argument)?;
    end_form(out)
}

/// Writes a word with two arguments.
pub fn write_with_two<T: WriteForm, U: WriteForm>(
    alloc: Global,
    out: &mut String,
    word: &str,
    first: &T,
    second: &U,
) -> Result<(), AllocError> {
    start_form(out, word)?;
    put_argument(alloc, out, first)?;
    put_argument(alloc, out, second)?;
    end_form(out)
}

/// Writes a byte string.
pub fn write_bytes(alloc: Global, out: &mut String, bytes: &[u8]) -> Result<(), AllocError> {
    let digits = hex::encode(alloc, bytes)?;
    out.push_str("0x")?;
    out.push_str(&digits)?;
    Ok(())
}

/// Writes items in brackets.
fn write_items<T: WriteForm>(
    alloc: Global,
    out: &mut String,
    items: &[T],
) -> Result<(), AllocError> {
    out.push('[')?;
    if let Some((first, others)) = items.split_first() {
        first.write_form(alloc, out)?;
        put_arguments(alloc, out, others)?;
    }
    out.push(']')?;
    Ok(())
}

fn put_arguments<T: WriteForm>(
    alloc: Global,
    out: &mut String,
    arguments: &[T],
) -> Result<(), AllocError> {
    for argument in arguments {
        put_argument(alloc, out, argument)?;
    }
    Ok(())
}

impl<T: WriteForm> WriteForm for Vec<T> {
    fn write_form(&self, alloc: Global, out: &mut String) -> Result<(), AllocError> {
        write_items(alloc, out, self.as_slice())
    }
}

impl<T: WriteForm> WriteForm for List<T> {
    fn write_form(&self, alloc: Global, out: &mut String) -> Result<(), AllocError> {
        write_items(alloc, out, self.as_slice())
    }
}

impl<T: WriteForm + Drop> WriteForm for SharedList<T> {
    fn write_form(&self, alloc: Global, out: &mut String) -> Result<(), AllocError> {
        write_items(alloc, out, self.as_slice())
    }
}

impl<T: WriteForm> WriteForm for &T {
    fn write_form(&self, alloc: Global, out: &mut String) -> Result<(), AllocError> {
        T::write_form(self, alloc, out)
    }
}

impl<T: WriteForm> WriteForm for Option<T> {
    fn write_form(&self, alloc: Global, out: &mut String) -> Result<(), AllocError> {
        match self {
            Some(value) => value.write_form(alloc, out),
            None => Ok(out.push_str("none")?),
        }
    }
}

impl<T: WriteForm, E: WriteForm> WriteForm for Result<T, E> {
    fn write_form(&self, alloc: Global, out: &mut String) -> Result<(), AllocError> {
        match self {
            Ok(value) => value.write_form(alloc, out),
            Err(fault) => fault.write_form(alloc, out),
        }
    }
}

impl WriteForm for bool {
    fn write_form(&self, _alloc: Global, out: &mut String) -> Result<(), AllocError> {
        Ok(out.push_str(if *self { "true" } else { "false" })?)
    }
}

impl WriteForm for u8 {
    fn write_form(&self, alloc: Global, out: &mut String) -> Result<(), AllocError> {
        Ok(out.push_str(&self.to_string(alloc)?)?)
    }
}

impl WriteForm for u64 {
    fn write_form(&self, alloc: Global, out: &mut String) -> Result<(), AllocError> {
        Ok(out.push_str(&self.to_string(alloc)?)?)
    }
}

impl WriteForm for usize {
    fn write_form(&self, alloc: Global, out: &mut String) -> Result<(), AllocError> {
        Ok(out.push_str(&self.to_string(alloc)?)?)
    }
}

impl WriteForm for i64 {
    fn write_form(&self, alloc: Global, out: &mut String) -> Result<(), AllocError> {
        Ok(out.push_str(&self.to_string(alloc)?)?)
    }
}
