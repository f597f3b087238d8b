//! Byte strings as the numbers, digests and parameter sets that calls take.
use line_pieces::NoAnswer;
use vo_spec::{Digest, OtsType};

/// The array that all the bytes are.
pub fn array_of<const N: usize>(bytes: &[u8]) -> Result<[u8; N], NoAnswer> {
    match bytes.split_first_chunk::<N>() {
        Some((array, [])) => Ok(*array),
        _ => Err(NoAnswer::NoSuchLine),
    }
}

pub fn digest_in(bytes: &[u8]) -> Result<Digest, NoAnswer> {
    Ok(Digest::new(array_of::<32>(bytes)?))
}

/// The number of up to 8 bytes, the highest first.
pub fn number_of(bytes: &[u8]) -> Result<u64, NoAnswer> {
    if bytes.len() > 8 {
        return Err(NoAnswer::NoSuchLine);
    }
    let mut number = 0;
    for byte in bytes {
        number = number << 8 | u64::from(*byte);
    }
    Ok(number)
}

pub fn small_number_of(bytes: &[u8]) -> Result<u32, NoAnswer> {
    match u32::try_from(number_of(bytes)?) {
        Ok(number) => Ok(number),
        Err(_) => Err(NoAnswer::NoSuchLine),
    }
}

/// The one byte that all the bytes are.
pub fn byte_of(bytes: &[u8]) -> Result<u8, NoAnswer> {
    let [byte] = array_of::<1>(bytes)?;
    Ok(byte)
}

/// The one-time parameter set of a typecode.
pub fn set_of(bytes: &[u8]) -> Result<OtsType, NoAnswer> {
    OtsType::of(small_number_of(bytes)?).ok_or(NoAnswer::NoSuchLine)
}
