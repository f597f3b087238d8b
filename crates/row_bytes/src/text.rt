//! Which bytes are a text of a column.
ghost use Rattle.std.specs.Prelude.{◌≡◌, nat_le};
ghost use Rattle.std.specs.List.{list_all};
ghost use Rattle.std.specs.Str.{is_utf8};
ghost use Rattle.row_bytes.specs.Reading.{text_fault};

use crate::fault::FormFault;

fn has_no_control(text: &[u8]) -> bool
    ensures { result ≡ list_all (nat_le 32) text.now }
{
    text.iter().all(|byte| 32 <= *byte)
}

fn is_utf8(text: &[u8]) -> bool
    ensures { result ≡ is_utf8 text.now }
{
    match std::str::from_utf8(text) {
        Ok(_) => true,
        Err(_) => false,
    }
}

/// What is wrong with a text of at most so many bytes.
pub(crate) fn text_fault(most: usize, text: &[u8]) -> Option<FormFault>
    ensures { result ≡ text_fault most text.now }
{
    if text.len() > most {
        return Some(FormFault::Length);
    }
    if !is_utf8(text) {
        return Some(FormFault::NotUtf8);
    }
    if !has_no_control(text) {
        return Some(FormFault::Control);
    }
    None
}
