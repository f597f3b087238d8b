//! Taking the fields of byte formats: strings and names behind their lengths.
ghost use Rattle.std.specs.Prelude.{◌≡◌};
ghost use Rattle.std.specs.List.{list_all};
ghost use Rattle.vo_spec.specs.Names.{is_name, is_name_byte, is_digit};
ghost use Rattle.row_bytes.specs.Fields.{Found, short_string_at, string_at, block_at, name_at, word_at};

use crate::cursor::Cursor;
use vo_spec::MAX_NAME;

impl<'b> Cursor<'b> {
    /// Bytes behind their length of one byte.
    #[tactic(auto, unfolding(crate::specs::Fields::short_string_at))]
    pub fn take_short_string(&mut self) -> Option<&'b [u8]>
        ensures { Found (λ bytes. bytes.now) result self.old self.new (short_string_at self.old) }
    {
        let mut ahead = self.copy();
        let count = ahead.take_byte()?;
        let bytes = ahead.take_bytes(count as usize)?;
        *self = ahead;
        Some(bytes)
    }

    /// Bytes behind their length of two bytes.
    #[tactic(auto, unfolding(crate::specs::Fields::string_at))]
    pub fn take_string(&mut self) -> Option<&'b [u8]>
        ensures { Found (λ bytes. bytes.now) result self.old self.new (string_at self.old) }
    {
        let mut ahead = self.copy();
        let count = ahead.take_u16()?;
        let bytes = ahead.take_bytes(count as usize)?;
        *self = ahead;
        Some(bytes)
    }

    /// Bytes behind their length of four bytes.
    #[tactic(auto, unfolding(crate::specs::Fields::block_at))]
    pub fn take_block(&mut self) -> Option<&'b [u8]>
        ensures { Found (λ bytes. bytes.now) result self.old self.new (block_at self.old) }
    {
        let mut ahead = self.copy();
        let count = ahead.take_u32()?;
        let bytes = ahead.take_bytes(count as usize)?;
        *self = ahead;
        Some(bytes)
    }

    /// The bytes of a name behind their length.
    #[tactic(auto, unfolding(crate::specs::Fields::name_at))]
    pub fn take_name(&mut self) -> Option<&'b [u8]>
        ensures { Found (λ bytes. bytes.now) result self.old self.new (name_at self.old) }
    {
        let mut ahead = self.copy();
        let name = ahead.take_short_string()?;
        if !is_name(name) {
            return None;
        }
        *self = ahead;
        Some(name)
    }

    /// These very bytes.
    #[tactic(auto, unfolding(crate::specs::Fields::word_at))]
    pub fn take_word(&mut self, word: &[u8]) -> Option<&'b [u8]>
        ensures { Found (λ bytes. bytes.now) result self.old self.new (word_at word.now self.old) }
    {
        let mut ahead = self.copy();
        let found = ahead.take_bytes(word.len())?;
        if found != word {
            return None;
        }
        *self = ahead;
        Some(found)
    }
}

// Whether the bytes are a name: 1 to 63 small letters, digits and `_`, of which the first is no
// digit.
fn is_name(bytes: &[u8]) -> bool
    ensures { result ≡ is_name bytes.now }
{
    match bytes.split_first() {
        None => false,
        Some((first, _)) => bytes.len() <= MAX_NAME && !is_digit(*first) && are_name_bytes(bytes),
    }
}

fn are_name_bytes(bytes: &[u8]) -> bool
    ensures { result ≡ list_all is_name_byte bytes.now }
{
    bytes.iter().all(|byte| is_name_byte(*byte))
}

fn is_name_byte(byte: u8) -> bool
    ensures { result ≡ is_name_byte byte }
{
    (b'a' <= byte && byte <= b'z') || is_digit(byte) || byte == b'_'
}

fn is_digit(byte: u8) -> bool
    ensures { result ≡ is_digit byte }
{
    b'0' <= byte && byte <= b'9'
}
