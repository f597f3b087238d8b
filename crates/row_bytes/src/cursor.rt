//! A place in a byte string, from which what stands there is taken.
ghost use Rattle.std.specs.Prelude.{◌≡◌, ◌↔◌, [], IsTrue};
ghost use Rattle.vo_spec.specs.Bytes.{IsBytes};
ghost use Rattle.row_bytes.specs.Reading.{byte_at, bytes_at, u16_at, u32_at, u64_at};
ghost use Rattle.row_bytes.specs.Fields.{Found};

use std::marker::Model;

/// What is left of a byte string. Contracts see it as these bytes. A call that fails has taken
/// nothing: one that takes several things goes ahead on a copy.
#[derive(Debug, Drop)]
pub struct Cursor<'b> {
    rest: &'b [u8],
}

impl<'b> Model for Cursor<'b> {
    ghost use Rattle.std.specs.Prelude.{List, ℕ};
    ghost use Rattle.vo_spec.specs.Bytes.{IsBytes};

    ghost Value = { List ℕ };

    ghost view = { λ cursor. cursor.rest.now };

    ghost invariant = { λ cursor. IsBytes cursor.rest.now };
}

impl<'b> Cursor<'b> {
    pub fn new(bytes: &'b [u8]) -> Cursor<'b>
        ensures { result ≡ bytes.now }
    {
        Cursor { rest: bytes }
    }

    /// What is left.
    pub fn rest(&self) -> &'b [u8]
        ensures { result.now ≡ self.now }
    {
        self.rest
    }

    /// Another cursor at this place.
    pub fn copy(&self) -> Cursor<'b>
        ensures place { result ≡ self.now }
        ensures bytes { IsBytes self.now }
    {
        Cursor { rest: self.rest }
    }

    pub fn is_empty(&self) -> bool
        ensures { IsTrue result ↔ (self.now ≡ []) }
    {
        self.rest.is_empty()
    }

    /// The next bytes, so many of them.
    #[tactic(auto, unfolding(crate::specs::Reading::bytes_at))]
    pub fn take_bytes(&mut self, count: usize) -> Option<&'b [u8]>
        ensures { Found (λ bytes. bytes.now) result self.old self.new (bytes_at count self.old) }
    {
        let (front, rest) = self.rest.split_at_checked(count)?;
        self.rest = rest;
        Some(front)
    }

    /// The next `N` bytes.
    #[tactic(auto, unfolding(crate::specs::Reading::bytes_at))]
    pub fn take_chunk<const N: usize>(&mut self) -> Option<&'b [u8; N]>
        ensures { Found (λ chunk. chunk.now) result self.old self.new (bytes_at N self.old) }
    {
        let (front, rest) = self.rest.split_first_chunk::<N>()?;
        self.rest = rest;
        Some(front)
    }

    #[tactic(auto, unfolding(crate::specs::Reading::byte_at))]
    pub fn take_byte(&mut self) -> Option<u8>
        ensures { Found (λ byte. byte) result self.old self.new (byte_at self.old) }
    {
        let (first, rest) = self.rest.split_first()?;
        self.rest = rest;
        Some(*first)
    }

    #[tactic(auto, unfolding(crate::specs::Reading::u16_at, vo_spec::specs::Bytes::u16_of))]
    pub fn take_u16(&mut self) -> Option<u16>
        ensures { Found (λ number. number) result self.old self.new (u16_at self.old) }
    {
        let (front, rest) = self.rest.split_first_chunk::<2>()?;
        self.rest = rest;
        Some(u16::from_be_bytes(*front))
    }

    #[tactic(auto, unfolding(crate::specs::Reading::u32_at, vo_spec::specs::Bytes::u32_of))]
    pub fn take_u32(&mut self) -> Option<u32>
        ensures { Found (λ number. number) result self.old self.new (u32_at self.old) }
    {
        let (front, rest) = self.rest.split_first_chunk::<4>()?;
        self.rest = rest;
        Some(u32::from_be_bytes(*front))
    }

    #[tactic(auto, unfolding(crate::specs::Reading::u64_at, vo_spec::specs::Bytes::u64_of))]
    pub fn take_u64(&mut self) -> Option<u64>
        ensures { Found (λ number. number) result self.old self.new (u64_at self.old) }
    {
        let (front, rest) = self.rest.split_first_chunk::<8>()?;
        self.rest = rest;
        Some(u64::from_be_bytes(*front))
    }
}
