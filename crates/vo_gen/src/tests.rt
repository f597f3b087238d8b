//! Workloads as a second implementation generates them.
use crate::{Work, generate};
use std::alloc::{AllocError, Global};
use std::test::Fail;
use vo_spec::{Batch, Command, Cond, Operand, QueryText, Value};

static ONE_STEP: [&str; 18] = [
    "create",
    "insert 0 n3594542985 9",
    "rows 13 44",
    "join 10 24",
    "rows 16 63",
    "join 12 69",
    "rows 17 22",
    "join 7 33",
    "rows 10 24",
    "join 14 56",
    "rows 9 10",
    "join 2 27",
    "rows 14 35",
    "join 8 67",
    "rows 6 17",
    "join 16 45",
    "rows 15 17",
    "join 7 25",
];

static TWELVE_STEPS: [&str; 29] = [
    "create",
    "insert 19 n3190034952 32",
    "insert 39 n1766805359 39",
    "insert 4 n2882773647 7",
    "insert 9 n2270893740 20",
    "insert 38 n2019771678 38",
    "insert 29 n1234463269 29",
    "insert 18 n1837630907 27",
    "delete 18",
    "update 39 39",
    "update 19 39",
    "insert 28 n4219811699 19",
    "insert 30 n3906654535 15",
    "rows 20 39",
    "join 17 31",
    "rows 5 17",
    "join 14 52",
    "rows 1 18",
    "join 19 47",
    "rows 12 70",
    "join 28 77",
    "rows 4 15",
    "join 6 41",
    "rows 25 73",
    "join 10 41",
    "rows 29 62",
    "join 1 34",
    "rows 7 57",
    "join 0 48",
];

/// Puts a value behind a blank.
fn put_value(alloc: Global, out: &mut Vec<u8>, value: &Value) -> Result<(), AllocError> {
    out.push(b' ')?;
    match value {
        Value::Int(number) => out.extend_from_slice(number.to_string(alloc)?.as_bytes())?,
        Value::Text(text) => out.extend_from_slice(text.as_bytes())?,
        Value::Bool(_) | Value::Null => out.push(b'?')?,
    }
    Ok(())
}

fn put_values(alloc: Global, out: &mut Vec<u8>, values: &[Value]) -> Result<(), AllocError> {
    for value in values {
        put_value(alloc, out, value)?;
    }
    Ok(())
}

/// A command by its word, its key and what it sets.
fn put_command(alloc: Global, out: &mut Vec<u8>, command: &Command) -> Result<(), AllocError> {
    match command {
        Command::Create { .. } => out.extend_from_slice(b"create")?,
        Command::Drop { .. } => out.extend_from_slice(b"drop")?,
        Command::Insert { values, .. } => {
            out.extend_from_slice(b"insert")?;
            put_values(alloc, out, values.as_slice())?;
        }
        Command::Update { sets, value, .. } => {
            out.extend_from_slice(b"update")?;
            put_value(alloc, out, value)?;
            for set in sets.as_slice() {
                put_value(alloc, out, &set.value)?;
            }
        }
        Command::Delete { value, .. } => {
            out.extend_from_slice(b"delete")?;
            put_value(alloc, out, value)?;
        }
    }
    out.push(b'\n')?;
    Ok(())
}

/// What a part of a condition compares with.
fn put_part(alloc: Global, out: &mut Vec<u8>, part: &Cond) -> Result<(), AllocError> {
    match part {
        Cond::Test {
            right: Operand::Literal(value),
            ..
        } => put_value(alloc, out, value),
        _ => Ok(()),
    }
}

/// A query by its kind and the keys that it asks for.
fn put_query(alloc: Global, out: &mut Vec<u8>, query: &QueryText) -> Result<(), AllocError> {
    let kind: &str = if query.join.is_some() { "join" } else { "rows" };
    out.extend_from_slice(kind.as_bytes())?;
    if let Some(Cond::All(parts)) = &query.cond {
        for part in parts.as_slice() {
            put_part(alloc, out, part)?;
        }
    }
    out.push(b'\n')?;
    Ok(())
}

fn put_batch(alloc: Global, out: &mut Vec<u8>, batch: &Batch) -> Result<(), AllocError> {
    for command in batch.commands.as_slice() {
        put_command(alloc, out, command)?;
    }
    Ok(())
}

/// All commands and queries, one a line.
fn lines(alloc: Global, work: &Work) -> Result<Vec<u8>, AllocError> {
    let mut out = Vec::new(alloc);
    for batch in work.batches.as_slice() {
        put_batch(alloc, &mut out, batch)?;
    }
    for query in work.queries.as_slice() {
        put_query(alloc, &mut out, query)?;
    }
    Ok(out)
}

fn text_of(alloc: Global, lines: &[&str]) -> Result<Vec<u8>, AllocError> {
    let mut out = Vec::new(alloc);
    for line in lines {
        out.extend_from_slice(line.as_bytes())?;
        out.push(b'\n')?;
    }
    Ok(out)
}

#[test]
fn one_step(rt: HostRuntime) -> Result<(), Fail> {
    let alloc = rt.alloc();
    let work = generate(alloc, 1, 0)?;
    assert!(rt; lines(alloc, &work)? == text_of(alloc, &ONE_STEP)?);
    Ok(())
}

#[test]
fn steps_of_each_kind(rt: HostRuntime) -> Result<(), Fail> {
    let alloc = rt.alloc();
    let work = generate(alloc, 12, 3)?;
    assert!(rt; lines(alloc, &work)? == text_of(alloc, &TWELVE_STEPS)?);
    Ok(())
}

#[test]
fn batches_of_a_hundred(rt: HostRuntime) -> Result<(), Fail> {
    let alloc = rt.alloc();
    let work = generate(alloc, 250, 7)?;
    let mut counts = Vec::new(alloc);
    for batch in work.batches.as_slice() {
        counts.push(batch.commands.len())?;
    }
    assert!(rt; counts.as_slice() == [1, 100, 100, 50].as_slice());
    Ok(())
}
