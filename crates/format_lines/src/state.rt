//! What lines before have left.
use line_pieces::NoAnswer;
use lms_sign::SecretKey;
use std::alloc::Global;

/// The bytes that were kept or made last, and the key that was.
#[derive(Drop)]
pub struct State {
    pub bytes: Vec<u8>,
    pub(crate) key: Option<SecretKey>,
}

impl State {
    pub fn new(alloc: Global) -> State {
        State {
            bytes: Vec::new(alloc),
            key: None,
        }
    }

    /// The key that was made last.
    pub fn secret(&self) -> Result<&SecretKey, NoAnswer> {
        self.key.as_ref().ok_or(NoAnswer::NoSuchLine)
    }

    /// Has this key from now on.
    pub fn keep_key(&mut self, key: SecretKey) {
        drop(self.key.replace(key));
    }

    /// Keeps bytes that were made, and has them in hexadecimal.
    pub fn keep(&mut self, alloc: Global, bytes: Vec<u8>) -> Result<String, NoAnswer> {
        let answer = hex::encode(alloc, bytes.as_slice())?;
        self.bytes = bytes;
        Ok(answer)
    }
}

/// Keeps a byte string, and has its length.
pub fn keep(alloc: Global, state: &mut State, strings: &[Vec<u8>]) -> Result<String, NoAnswer> {
    let [bytes] = strings else {
        return Err(NoAnswer::NoSuchLine);
    };
    state.bytes = Vec::from_slice(alloc, bytes)?;
    Ok(format!(in alloc; "{}", bytes.len())?)
}
