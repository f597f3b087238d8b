//! What explains a signature that is valid under an owner's key, though the owner did not make it:
//! a collision of SHA-256, or a value of a hash chain that the owner did not release.
#![tactic(auto)]

mod chains;
mod comparison;
mod digits;
mod explanation;
mod leaves;
mod levels;
mod parts;
mod paths;
mod signed;
#[cfg(test)]
mod tests;
mod texts;

pub use explanation::Explanation;
pub use levels::explain;
pub use lms_sign::SecretKey;
pub use vo_spec::{Collision, Digest, Record};
