//! Runs over a file that is changed in one place after the other.
use crate::calls::end_text;
use crate::folder::Folder;
use line_pieces::NoAnswer;
use outside::NamedFile;
use std::alloc::{AllocError, Global};

/// How a file is changed at a place.
#[derive(Clone, Copy)]
pub enum Change {
    /// It ends there.
    Cut,
    /// The lowest bit of the byte there is turned.
    Turn,
}

/// A file that is changed, and the words of the runs over it.
#[derive(Drop)]
pub struct Changes {
    pub change: Change,
    pub name: String,
    pub words: Vec<String>,
}

/// The answers to runs over the file, changed at each place in turn. Of those that follow each
/// other and are the same one stands, behind their number.
pub fn run_over_changes(
    alloc: Global,
    folder: &Folder,
    changes: &Changes,
) -> Result<String, NoAnswer> {
    let Some(bytes) = folder.find(&changes.name) else {
        return Err(NoAnswer::NoSuchLine);
    };
    let mut answers = Answers::new(alloc)?;
    for at in 0..bytes.len() {
        let changed = change_bytes(alloc, bytes, changes.change, at)?;
        answers.add(alloc, run_over_changed(alloc, folder, changes, changed)?)?;
    }
    Ok(answers.text(alloc)?)
}

/// The answer to a run over these bytes.
fn run_over_changed(
    alloc: Global,
    folder: &Folder,
    changes: &Changes,
    bytes: Vec<u8>,
) -> Result<String, NoAnswer> {
    let name = String::from_str(alloc, &changes.name)?;
    let end = folder.run_with(alloc, &changes.words, NamedFile { name, bytes })?;
    let answer = end_text(alloc, &end);
    drop(end);
    answer
}

fn change_bytes(
    alloc: Global,
    bytes: &[u8],
    change: Change,
    at: usize,
) -> Result<Vec<u8>, AllocError> {
    match change {
        Change::Cut => {
            let (front, _) = bytes.split_at(bytes.len().min(at));
            Vec::from_slice(alloc, front)
        }
        Change::Turn => {
            let mut all = Vec::from_slice(alloc, bytes)?;
            if let Some(byte) = all.get_mut(at) {
                *byte ^= 1;
            }
            Ok(all)
        }
    }
}

/// Answers, those that follow each other and are the same counted.
#[derive(Drop)]
struct Answers {
    text: String,
    last: String,
    count: u64,
}

impl Answers {
    fn new(alloc: Global) -> Result<Answers, AllocError> {
        Ok(Answers {
            text: String::from_str(alloc, "")?,
            last: String::from_str(alloc, "")?,
            count: 0,
        })
    }

    fn add(&mut self, alloc: Global, answer: String) -> Result<(), AllocError> {
        if self.count > 0 && self.last != answer {
            self.text = self.text(alloc)?;
            self.count = 0;
        }
        self.last = answer;
        self.count = self.count.saturating_add(1);
        Ok(())
    }

    /// All that were added.
    fn text(&self, alloc: Global) -> Result<String, AllocError> {
        let before = if self.text.is_empty() { "" } else { ", " };
        format!(in alloc; "{}{before}{} * {}", self.text, self.count, self.last)
    }
}
