//! Steps, and the commands that they are.
ghost use Rattle.std.specs.Prelude.{◌≡◌, ◌++◌, map, codes, decimal, IfOk, not, ◌&&◌, if◌then◌else◌};
ghost use Rattle.vo_gen.specs.Workload.{number, plain_column, insertion, deletion, change, creation, command_of, is_even};

use std::alloc::{AllocError, Global};
use vo_spec::{Column, Command, Kind, List, Name, SetPart, Text, Value};

/// What a step does with the row of its key.
#[derive(Clone, Copy, Debug)]
pub enum WorkloadStep {
    Insert { key: u32, word: u32, boss: u32 },
    Delete { key: u32 },
    Update { key: u32, boss: u32 },
}

impl WorkloadStep {
    /// The step of a key that stands or doesn't, and of a word, its mark.
    pub fn of(stands: bool, key: u32, word: u32, boss: u32) -> WorkloadStep
        ensures { command_of result ≡ (if not stands then insertion key word boss
            else if is_even word then deletion key else change key boss) }
    {
        if !stands {
            WorkloadStep::Insert { key, word, boss }
        } else if word % 2 == 0 {
            WorkloadStep::Delete { key }
        } else {
            WorkloadStep::Update { key, boss }
        }
    }

    /// The step's command.
    pub fn command(self, alloc: Global) -> Result<Command, AllocError>
        ensures { IfOk result (λ command. command ≡ command_of self) }
    {
        match self {
            WorkloadStep::Insert { key, word, boss } => insertion(alloc, key, word, boss),
            WorkloadStep::Delete { key } => deletion(alloc, key),
            WorkloadStep::Update { key, boss } => change(alloc, key, boss),
        }
    }
}

pub fn name(alloc: Global, text: &str) -> Result<Name, AllocError>
    ensures { IfOk result (λ name. name ≡ text.now) }
{
    Ok(Name::from_vec(Vec::from_slice(alloc, text.as_bytes())?))
}

pub fn number(value: u32) -> Value
    ensures { result ≡ number value }
{
    Value::Int(i64::from(value))
}

fn column(alloc: Global, text: &str, kind: Kind) -> Result<Column, AllocError>
    ensures { IfOk result (λ column. column ≡ plain_column text.now kind) }
{
    Ok(Column {
        name: name(alloc, text)?,
        kind,
        nullable: false,
    })
}

/// The letter n, and the word in decimal.
fn label(alloc: Global, word: u32) -> Result<Text, AllocError>
    ensures { IfOk result (λ text. text ≡ codes "n" ++ decimal word) }
{
    Ok(Text::from_vec(format!(in alloc; "n{word}")?.into_bytes()))
}

/// The command that makes the table.
pub fn creation(alloc: Global) -> Result<Command, AllocError>
    ensures { IfOk result (λ command. command ≡ creation) }
{
    let columns = vec![in alloc;
        column(alloc, "id", Kind::Int)?,
        column(alloc, "name", Kind::Text)?,
        column(alloc, "boss", Kind::Int)?,
    ]?;
    Ok(Command::Create {
        name: name(alloc, "t")?,
        columns: List::from_vec(columns),
        key: name(alloc, "id")?,
    })
}

fn insertion(alloc: Global, key: u32, word: u32, boss: u32) -> Result<Command, AllocError>
    ensures { IfOk result (λ command. command ≡ insertion key word boss) }
{
    let values = vec![in alloc; number(key), Value::Text(label(alloc, word)?), number(boss)]?;
    Ok(Command::Insert {
        name: name(alloc, "t")?,
        values: List::from_vec(values),
    })
}

fn deletion(alloc: Global, key: u32) -> Result<Command, AllocError>
    ensures { IfOk result (λ command. command ≡ deletion key) }
{
    Ok(Command::Delete {
        name: name(alloc, "t")?,
        column: name(alloc, "id")?,
        value: number(key),
    })
}

fn change(alloc: Global, key: u32, boss: u32) -> Result<Command, AllocError>
    ensures { IfOk result (λ command. command ≡ change key boss) }
{
    let set = SetPart {
        column: name(alloc, "boss")?,
        value: number(boss),
    };
    Ok(Command::Update {
        name: name(alloc, "t")?,
        sets: List::from_vec(vec![in alloc; set]?),
        column: name(alloc, "id")?,
        value: number(key),
    })
}
