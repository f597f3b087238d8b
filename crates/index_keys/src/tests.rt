//! Index keys and bounds, compared with bytes that the second implementation gives.
use crate::{index_key, index_keys_that, indexed_value, is_index_key, primary_key};
use std::alloc::{AllocError, Global};
use std::test::Fail;
use vo_spec::{Bound, Cmp, Key, Kind, Text, Value};

// The key of the BIGINT 2, and the index key of the BIGINT 1 before it.
const TWO: [u8; 8] = [0x80, 0, 0, 0, 0, 0, 0, 2];

const ONE_TWO: [u8; 17] = [0x80, 0, 0, 0, 0, 0, 0, 1, 0, 0x80, 0, 0, 0, 0, 0, 0, 2];

fn text(alloc: Global, bytes: &[u8]) -> Result<Value, AllocError> {
    Ok(Value::Text(Text::from_vec(Vec::from_slice(alloc, bytes)?)))
}

/// Whether the key of this value, before that of the BIGINT 2, has these bytes.
fn has_key(alloc: Global, value: &Value, bytes: &[u8]) -> Result<bool, AllocError> {
    let key = Key::from_vec(Vec::from_slice(alloc, &TWO)?);
    Ok(index_key(alloc, value, &key)?.as_bytes() == bytes)
}

/// The bytes of a bound, behind the sign by which it is written.
fn bound_is(bound: &Bound, sign: u8, bytes: &[u8]) -> bool {
    match bound {
        Bound::Absent => sign == b'-',
        Bound::Inclusive(key) => sign == b'=' && key.as_bytes() == bytes,
        Bound::Exclusive(key) => sign == b'<' && key.as_bytes() == bytes,
    }
}

/// Whether the bounds of a comparison with the text `k` have these signs, and these last bytes.
fn bounds_are(alloc: Global, op: Cmp, low: (u8, u8), high: (u8, u8)) -> Result<bool, AllocError> {
    let keys = index_keys_that(alloc, op, &text(alloc, b"k")?)?;
    Ok(bound_is(&keys.low, low.0, &[b'k', low.1]) && bound_is(&keys.high, high.0, &[b'k', high.1]))
}

#[test]
fn keys_are_a_value_a_zero_and_the_row_s_key(rt: HostRuntime) -> Result<(), Fail> {
    let alloc = rt.alloc();
    assert_eq!(rt; has_key(alloc, &Value::Int(1), &ONE_TWO), Ok(true));
    let ann = [b'a', b'n', b'n', 0, 0x80, 0, 0, 0, 0, 0, 0, 2];
    let made = match text(alloc, b"ann") {
        Ok(value) => has_key(alloc, &value, &ann),
        Err(fault) => Err(fault),
    };
    assert_eq!(rt; made, Ok(true));
    Ok(())
}

#[test]
fn keys_are_split_where_the_value_ends(rt: HostRuntime) -> Result<(), Fail> {
    assert!(rt; indexed_value(Kind::Int, &ONE_TWO) == &ONE_TWO[..8]);
    assert!(rt; primary_key(Kind::Int, &ONE_TWO) == TWO.as_slice());
    assert!(rt; indexed_value(Kind::Text, b"ann\0b") == b"ann".as_slice());
    assert!(rt; primary_key(Kind::Text, b"ann\0b") == b"b".as_slice());
    Ok(())
}

#[test]
fn keys_are_told_from_other_bytes(rt: HostRuntime) -> Result<(), Fail> {
    assert!(rt; is_index_key(Kind::Int, Kind::Int, &ONE_TWO));
    assert!(rt; !is_index_key(Kind::Int, Kind::Int, &ONE_TWO[..16]));
    assert!(rt; !is_index_key(Kind::Text, Kind::Int, b"ann"));
    assert!(rt; is_index_key(Kind::Text, Kind::Text, b"ann\0b"));
    assert!(rt; !is_index_key(Kind::Text, Kind::Bool, b"ann\0b"));
    Ok(())
}

#[test]
fn bounds_stand_before_or_behind_all_keys_of_a_value(rt: HostRuntime) -> Result<(), Fail> {
    let alloc = rt.alloc();
    assert_eq!(rt; bounds_are(alloc, Cmp::Eq, (b'=', 0), (b'<', 1)), Ok(true));
    assert_eq!(rt; bounds_are(alloc, Cmp::Ne, (b'-', 0), (b'-', 0)), Ok(true));
    assert_eq!(rt; bounds_are(alloc, Cmp::Lt, (b'-', 0), (b'<', 0)), Ok(true));
    assert_eq!(rt; bounds_are(alloc, Cmp::Le, (b'-', 0), (b'<', 1)), Ok(true));
    assert_eq!(rt; bounds_are(alloc, Cmp::Gt, (b'=', 1), (b'-', 0)), Ok(true));
    assert_eq!(rt; bounds_are(alloc, Cmp::Ge, (b'=', 0), (b'-', 0)), Ok(true));
    Ok(())
}
