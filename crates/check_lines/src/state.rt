//! What lines leave to those after them.
use crate::line::Splice;
use line_pieces::{NoAnswer, form_of, query_in};
use lms_sign::PublicKey;
use std::alloc::Global;
use vo_spec::QueryText;

/// The key, the query and the reply of the checks to come.
#[derive(Drop)]
pub struct State {
    key: Option<PublicKey>,
    query: Option<QueryText>,
    /// The bytes that a splice changes.
    kept: Vec<u8>,
    pub(crate) reply: Vec<u8>,
}

impl State {
    pub fn new(alloc: Global) -> State {
        State {
            key: None,
            query: None,
            kept: Vec::new(alloc),
            reply: Vec::new(alloc),
        }
    }

    pub(crate) fn key(&self) -> Result<PublicKey, NoAnswer> {
        self.key.ok_or(NoAnswer::NoSuchLine)
    }

    pub(crate) fn query(&self) -> Result<&QueryText, NoAnswer> {
        self.query.as_ref().ok_or(NoAnswer::NoSuchLine)
    }

    /// Has the key that the bytes are, and its identifier.
    pub fn keep_key(&mut self, alloc: Global, bytes: &[u8]) -> Result<String, NoAnswer> {
        match PublicKey::read(bytes) {
            Ok(key) => {
                self.key = Some(key);
                Ok(hex::encode(alloc, key.id())?)
            }
            Err(_) => Err(NoAnswer::NoSuchLine),
        }
    }

    /// Has the query of a text, and its written form.
    pub fn keep_query(&mut self, alloc: Global, text: &[u8]) -> Result<String, NoAnswer> {
        match query_in(alloc, text) {
            Ok(query) => drop(self.query.replace(query)),
            Err(fault) => return Err(fault),
        }
        Ok(form_of(alloc, self.query()?)?)
    }

    /// Has a reply, and its length.
    pub fn keep_reply(&mut self, alloc: Global, bytes: Vec<u8>) -> Result<String, NoAnswer> {
        self.reply = Vec::from_slice(alloc, &bytes)?;
        self.kept = bytes;
        self.length_text(alloc)
    }

    /// Has the kept reply with other bytes in it, and its length.
    pub fn splice_reply(&mut self, alloc: Global, splice: &Splice) -> Result<String, NoAnswer> {
        let (front, rest) = self.kept.split_at(self.kept.len().min(splice.at));
        let (_, back) = rest.split_at(rest.len().min(splice.cut));
        let mut bytes = Vec::from_slice(alloc, front)?;
        bytes.extend_from_slice(&splice.bytes)?;
        bytes.extend_from_slice(back)?;
        self.reply = bytes;
        self.length_text(alloc)
    }

    fn length_text(&self, alloc: Global) -> Result<String, NoAnswer> {
        Ok(format!(in alloc; "{} bytes", self.reply.len())?)
    }
}
