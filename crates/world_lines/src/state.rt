//! What lines leave to those after them.
use crate::happenings::{Happening, Kind, events_of, image_of};
use crate::said::{all_said_text, said_text};
use crate::shown::journal_text;
use line_pieces::NoAnswer;
use std::alloc::Global;
use vo_world::{World, run_schedule};

/// The bytes kept and the key made last, the world, and what has happened there.
#[derive(Drop)]
pub struct State {
    pub made: format_lines::State,
    world: Option<World>,
    happened: Vec<Happening>,
}

impl State {
    pub fn new(alloc: Global) -> State {
        State {
            made: format_lines::State::new(alloc),
            world: None,
            happened: Vec::new(alloc),
        }
    }

    pub fn world(&self) -> Result<&World, NoAnswer> {
        self.world.as_ref().ok_or(NoAnswer::NoSuchLine)
    }

    /// Begins a world of so many clients, and has its journal.
    pub fn begin(&mut self, alloc: Global, clients: usize) -> Result<String, NoAnswer> {
        let key = self.made.secret()?.copy(alloc)?;
        let world = World::new(alloc, key, clients)?;
        self.happened.clear();
        drop(self.world.replace(world));
        journal_text(alloc, self.world()?)
    }

    /// Has something happen, and what is said of it.
    pub fn happen(
        &mut self,
        alloc: Global,
        kind: Kind,
        strings: Vec<Vec<u8>>,
    ) -> Result<String, NoAnswer> {
        match &mut self.world {
            Some(world) => {
                let happening = happening_of(alloc, world, kind, strings)?;
                let text = step_text(alloc, world, &happening);
                keep_unless_fault(&mut self.happened, happening, text)
            }
            None => {
                drop(strings);
                Err(NoAnswer::NoSuchLine)
            }
        }
    }

    /// Has all that happened happen once more, and what is said of each event.
    pub fn happen_again(&mut self, alloc: Global) -> Result<String, NoAnswer> {
        let clients = self.world()?.client_count();
        let key = self.made.secret()?.copy(alloc)?;
        let events = events_of(alloc, clients, &self.happened)?;
        let (world, said) = run_schedule(alloc, key, clients, events)?;
        drop(self.world.replace(world));
        let text = all_said_text(alloc, &said);
        drop(said);
        text
    }
}

/// What happens, where the image of a crash is spelled by the journal.
fn happening_of(
    alloc: Global,
    world: &World,
    kind: Kind,
    strings: Vec<Vec<u8>>,
) -> Result<Happening, NoAnswer> {
    match kind {
        Kind::Crash => {
            let image = image_of(alloc, world.journal(), strings.as_slice());
            drop(strings);
            Ok(Happening {
                kind,
                strings: image?,
            })
        }
        _ => Ok(Happening { kind, strings }),
    }
}

fn step_text(alloc: Global, world: &mut World, happening: &Happening) -> Result<String, NoAnswer> {
    let event = happening.event(alloc, world.client_count())?;
    let says = world.step(alloc, event)?;
    let text = said_text(alloc, &says);
    drop(says);
    text
}

/// Keeps what happened, unless the line asked for nothing that can happen.
fn keep_unless_fault(
    happened: &mut Vec<Happening>,
    happening: Happening,
    text: Result<String, NoAnswer>,
) -> Result<String, NoAnswer> {
    match text {
        Ok(text) => {
            happened.push(happening)?;
            Ok(text)
        }
        Err(fault) => {
            drop(happening);
            Err(fault)
        }
    }
}
