//! One-time signatures by hash chains: LM-OTS over SHA-256 (RFC 8554, section 4).
//!
//! A key pair is named by the identifier of its tree and its leaf's number. Its secrets are made
//! from a seed as in the RFC's appendix A, and so is the randomizer: one message by one leaf always
//! has one signature.
#![tactic(auto)]

mod candidates;
mod chains;
mod digits;
mod numbers;
mod signing;
mod texts;

pub use candidates::{candidate, chain_value, randomizer_of, write_candidate_text};
pub use chains::{chain, public_of, secret, write_public_text, write_step_text};
pub use digits::{checksum, coef, digits_of, write_message_text};
pub use numbers::{digest_at, u32_at};
pub use signing::{randomizer, sign_onto, sign_ots, signed_value};
pub use texts::write_prefix;
pub use vo_spec::{Digest, OtsType};
