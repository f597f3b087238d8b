//! What happens in a world, by the byte strings of a line.
ghost use Rattle.std.specs.Prelude.{All, IfOk};
ghost use Rattle.vo_world.specs.Steps.{FitsEvent};

use format_lines::{batch_in, number_of};
use line_pieces::{NoAnswer, query_in};
use std::alloc::{AllocError, Global};
use vo_spec::List;
use vo_world::Event;

/// What a line has happen.
#[derive(Clone, Copy)]
pub enum Kind {
    Commit,
    Crash,
    Receive,
}

/// What happens: the batch and the proofs, the image, or the client, the query and the reply.
#[derive(Drop)]
pub struct Happening {
    pub kind: Kind,
    pub strings: Vec<Vec<u8>>,
}

impl Happening {
    /// The event, in a world of so many clients.
    pub fn event(&self, alloc: Global, clients: usize) -> Result<Event, NoAnswer>
        ensures { IfOk result (FitsEvent clients) }
    {
        match (self.kind, self.strings.as_slice()) {
            (Kind::Commit, [batch, proofs]) => {
                let proofs = list_of(alloc, proofs)?;
                Ok(Event::Commit {
                    batch: batch_in(alloc, batch)?,
                    proofs,
                })
            }
            (Kind::Crash, [image]) => Ok(Event::Crash {
                image: list_of(alloc, image)?,
            }),
            (Kind::Receive, [client, query, bytes]) => {
                receive_event(alloc, clients, number_of(client)? as usize, query, bytes)
            }
            _ => Err(NoAnswer::NoSuchLine),
        }
    }
}

fn receive_event(
    alloc: Global,
    clients: usize,
    client: usize,
    query: &[u8],
    bytes: &[u8],
) -> Result<Event, NoAnswer>
    ensures { IfOk result (FitsEvent clients) }
{
    if client >= clients {
        return Err(NoAnswer::NoSuchLine);
    }
    let bytes = list_of(alloc, bytes)?;
    Ok(Event::Receive {
        client,
        query: query_in(alloc, query)?,
        bytes,
    })
}

fn list_of(alloc: Global, bytes: &[u8]) -> Result<List<u8>, AllocError> {
    Ok(List::from_vec(Vec::from_slice(alloc, bytes)?))
}

/// The events, in a world of so many clients.
pub fn events_of(
    alloc: Global,
    clients: usize,
    happened: &[Happening],
) -> Result<Vec<Event>, NoAnswer>
    ensures { IfOk result (λ events. All (FitsEvent clients) events.items) }
{
    let mut events = Vec::new(alloc);
    for happening in happened {
        events.push(happening.event(alloc, clients)?)?;
    }
    Ok(events)
}

/// The strings of a crash that leaves the journal without so many bytes at its end, and these in
/// their place.
pub fn image_of(
    alloc: Global,
    journal: &[u8],
    strings: &[Vec<u8>],
) -> Result<Vec<Vec<u8>>, NoAnswer> {
    let [lost, bytes] = strings else {
        return Err(NoAnswer::NoSuchLine);
    };
    let left = journal.len().saturating_sub(number_of(lost)? as usize);
    let mut image = Vec::from_slice(alloc, &journal[..left])?;
    image.extend_from_slice(bytes)?;
    Ok(vec![in alloc; image]?)
}
