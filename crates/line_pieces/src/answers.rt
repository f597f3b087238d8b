//! What calls answer: a word, or a value or a fault in its written form.
use crate::form::WriteForm;
use std::alloc::{AllocError, Global};
use std::io;

/// A value or a fault.
pub fn describe<T: WriteForm>(alloc: Global, value: &T) -> io::Result<String> {
    Ok(form_of(alloc, value)?)
}

/// The written form.
pub fn form_of<T: WriteForm>(alloc: Global, value: &T) -> Result<String, AllocError> {
    let mut form = String::new(alloc);
    value.write_form(alloc, &mut form)?;
    Ok(form)
}

/// A word that says why there is no more to say.
pub fn word(alloc: Global, word: &str) -> io::Result<String> {
    Ok(word.to_string(alloc)?)
}
