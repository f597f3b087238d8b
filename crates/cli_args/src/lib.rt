//! The command line: which words ask for what.
//!
//! The words are read as `clap` reads a program of one level of commands: options anywhere after
//! the command, as `--name V` or `--name=V`, each once; `--` ends them, and a lone `-` is a word.
#![tactic(auto)]

mod commands;
mod numbers;
mod read;
mod request;

pub use read::read_words;
pub use request::{Command, Commitment, Height, KeyShape, Levels, OwnerAudit, Request, Service};
