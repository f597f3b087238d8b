//! A SHA-256 hasher (FIPS 180-4) that contracts see as the bytes hashed so far, and the log of
//! bytes, for proofs alone, by which they do.
#![tactic(auto)]

mod byte_log;
mod hasher;

pub use byte_log::{ByteLog, Piece};
pub use hasher::RunningHash;
pub use vo_spec::Digest;

#[cfg(test)]
mod tests {
    use super::*;

    /// The digest of `abc` that FIPS 180-4 works out.
    static DIGEST: [u8; 32] = [
        0xba, 0x78, 0x16, 0xbf, 0x8f, 0x01, 0xcf, 0xea, 0x41, 0x41, 0x40, 0xde, 0x5d, 0xae, 0x22,
        0x23, 0xb0, 0x03, 0x61, 0xa3, 0x96, 0x17, 0x7a, 0x9c, 0xb4, 0x10, 0xff, 0x61, 0xf2, 0x00,
        0x15, 0xad,
    ];

    #[test]
    fn hashes_in_pieces(rt: HostRuntime) {
        let mut hasher = RunningHash::new();
        hasher.add(b"a");
        hasher.add(b"bc");
        assert_eq!(rt; *hasher.digest().as_bytes(), DIGEST);
    }
}
