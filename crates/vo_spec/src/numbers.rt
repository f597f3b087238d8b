//! Numbers as bytes, the highest first.
ghost use Rattle.std.specs.Prelude.{◌≡◌};
ghost use Rattle.vo_spec.specs.Bytes.{u16_bytes, u32_bytes, u64_bytes};

/// The number's two bytes.
#[tactic(auto, unfolding(crate::specs::Bytes::u16_bytes))]
pub fn u16_bytes(number: u16) -> [u8; 2]
    ensures { result ≡ u16_bytes number }
{
    number.to_be_bytes()
}

/// The number's four bytes.
#[tactic(auto, unfolding(crate::specs::Bytes::u32_bytes))]
pub fn u32_bytes(number: u32) -> [u8; 4]
    ensures { result ≡ u32_bytes number }
{
    number.to_be_bytes()
}

/// The number's eight bytes.
#[tactic(auto, unfolding(crate::specs::Bytes::u64_bytes))]
pub fn u64_bytes(number: u64) -> [u8; 8]
    ensures { result ≡ u64_bytes number }
{
    number.to_be_bytes()
}
