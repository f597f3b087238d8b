//! The commands of the program: what a command line and the files that it names come to.
#![tactic(auto)]

mod answer;
mod answers;
mod ask;
mod audit;
mod check;
mod explain;
mod explanations;
mod files;
mod generate;
mod journal_owner;
mod keygen;
mod limits;
mod lines;
mod meet;
mod meetings;
mod output;
mod own;
mod owner_opening;
mod owner_refusals;
mod piece;
mod refusals;
mod reply_refusals;
mod report;
mod seal;
mod serve;
mod store_replies;
mod text_refusals;
mod texts;
mod top;
mod verdicts;

pub use top::run;
