//! Keys and separators in their order, where a separator that isn't there lets all keys pass.
ghost use Rattle.std.specs.Prelude.{◌≡◌, slice_get};
ghost use Rattle.std.specs.Option.{option_copied};
ghost use Rattle.vo_spec.specs.Representation.{is_between as does_stand_between, is_from as is_at_or_above, is_before as is_under};
ghost use Rattle.range_proof.specs.ActiveNeeds.{max_lower as max_lower_of, min_upper as min_upper_of};

use key_intervals::key_lt;
use vo_spec::KeyPart;

/// The separator behind the child at this place of a part; none behind the last.
pub fn separator_at<'s>(separators: &'s [KeyPart<'_>], place: usize) -> Option<&'s [u8]>
    ensures { option_copied result ≡ slice_get separators.now place }
{
    match separators.get(place) {
        Some(separator) => Some(separator.as_bytes()),
        None => None,
    }
}

/// Whether the key is from the one separator on and before the other; a missing one lets it pass.
pub fn is_between(lower: Option<&[u8]>, upper: Option<&[u8]>, key: &[u8]) -> bool
    ensures { result ≡ does_stand_between (option_copied lower.entry)
        (option_copied upper.entry) key.now }
{
    is_from(lower, key) && is_before(upper, key)
}

fn is_from(lower: Option<&[u8]>, key: &[u8]) -> bool
    ensures { result ≡ is_at_or_above (option_copied lower.entry) key.now }
{
    match lower {
        None => true,
        Some(lower) => !key_lt(key, lower),
    }
}

fn is_before(upper: Option<&[u8]>, key: &[u8]) -> bool
    ensures { result ≡ is_under (option_copied upper.entry) key.now }
{
    match upper {
        None => true,
        Some(upper) => key_lt(key, upper),
    }
}

/// The greater of two lower separators; a missing one is below all.
pub fn max_lower<'k>(first: Option<&'k [u8]>, second: Option<&'k [u8]>) -> Option<&'k [u8]>
    ensures { option_copied result ≡ max_lower_of (option_copied first.entry)
        (option_copied second.entry) }
{
    match (first, second) {
        (None, _) => second,
        (Some(_), None) => first,
        (Some(a), Some(b)) => { if key_lt(a, b) { second } else { first } },
    }
}

/// The smaller of two upper separators; a missing one is above all.
pub fn min_upper<'k>(first: Option<&'k [u8]>, second: Option<&'k [u8]>) -> Option<&'k [u8]>
    ensures { option_copied result ≡ min_upper_of (option_copied first.entry)
        (option_copied second.entry) }
{
    match (first, second) {
        (None, _) => second,
        (Some(_), None) => first,
        (Some(a), Some(b)) => { if key_lt(b, a) { second } else { first } },
    }
}
