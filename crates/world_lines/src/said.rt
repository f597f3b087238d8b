//! The written forms of what is said of events.
use format_lines::owner_fault_text;
use line_pieces::{NoAnswer, WriteForm, form_of};
use std::alloc::Global;
use vo_world::Said;

/// What is said of an event.
pub fn said_text(alloc: Global, says: &Said) -> Result<String, NoAnswer> {
    match says {
        Said::Committed(version) => with_word(alloc, "Committed", version),
        Said::Denied(fault) => {
            let fault = owner_fault_text(alloc, *fault)?;
            Ok(format!(in alloc; "(Denied {fault})")?)
        }
        Said::Reopened(count) => with_word(alloc, "Reopened", count),
        Said::NoImage => Ok("NoImage".to_string(alloc)?),
        Said::Accepted(answer) => with_word(alloc, "Accepted", answer),
        Said::Refused(fault) => with_word(alloc, "Refused", fault),
    }
}

fn with_word<T: WriteForm>(alloc: Global, word: &str, about: &T) -> Result<String, NoAnswer> {
    let about = form_of(alloc, about)?;
    Ok(format!(in alloc; "({word} {about})")?)
}

/// What is said of each event.
pub fn all_said_text(alloc: Global, said: &[Said]) -> Result<String, NoAnswer> {
    let mut line = format!(in alloc; "{} events", said.len())?;
    for says in said {
        line.push_str(", ")?;
        line.push_str(&said_text(alloc, says)?)?;
    }
    Ok(line)
}
