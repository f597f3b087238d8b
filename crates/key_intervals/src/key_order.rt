//! The order of keys.
ghost use Rattle.std.specs.Prelude.{◌≡◌, IfSome};
ghost use Rattle.vo_spec.specs.Bytes.{u64_bytes};
ghost use Rattle.vo_spec.specs.Values.{key_cmp};

use std::cmp::Ordering;

/// The order of two keys by their bytes. Most are of numbers: these are compared at once.
#[tactic(auto, using(vo_laws::proofs::ValueOrder::numbers_in_order))]
pub fn compare_keys(a: &[u8], b: &[u8]) -> Ordering
    ensures { result ≡ key_cmp a.now b.now }
{
    match (number_in(a), number_in(b)) {
        (Some(a), Some(b)) => a.cmp(&b),
        _ => a.cmp(b),
    }
}

/// The number whose eight bytes these are.
fn number_in(bytes: &[u8]) -> Option<u64>
    ensures { IfSome result (λ number. bytes.now ≡ u64_bytes number) }
{
    let (front, rest) = bytes.split_first_chunk::<8>()?;
    if rest.is_empty() {
        Some(u64::from_be_bytes(*front))
    } else {
        None
    }
}
