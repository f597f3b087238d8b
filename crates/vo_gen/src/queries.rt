//! The queries of a workload.
ghost use Rattle.std.specs.Prelude.{◌≡◌, ℕ, ◌+◌, ◌*◌, ◌<◌, ◌≤◌, IfOk, Some};
ghost use Rattle.vo_gen.specs.Words.{word_of};
ghost use Rattle.vo_gen.specs.Workload.{max_steps, keys_for, query, queries_of, column, column_of, source, between, selection, join_query};

use crate::drawing::keys_for;
use crate::steps::{name, number};
use crate::words::Words;
use std::alloc::{AllocError, Global};
use vo_spec::{Cmp, Cond, Items, Join, List, Operand, QueryText, Ref, Source};

/// How many queries there are.
const QUERIES: u32 = 16;

fn column(alloc: Global, text: &str) -> Result<Ref, AllocError>
    ensures { IfOk result (λ made. made ≡ column text.now) }
{
    Ok(Ref {
        qualifier: None,
        column: name(alloc, text)?,
    })
}

fn column_of(alloc: Global, alias: &str, text: &str) -> Result<Ref, AllocError>
    ensures { IfOk result (λ made. made ≡ column_of alias.now text.now) }
{
    Ok(Ref {
        qualifier: Some(name(alloc, alias)?),
        column: name(alloc, text)?,
    })
}

fn source(alloc: Global, alias: &str) -> Result<Source, AllocError>
    ensures { IfOk result (λ made. made ≡ source alias.now) }
{
    Ok(Source {
        table: name(alloc, "t")?,
        alias: name(alloc, alias)?,
    })
}

/// That the first reference is at least `low`, and the second below `high`.
fn between(alloc: Global, from: Ref, to: Ref, low: u32, high: u32) -> Result<Cond, AllocError>
    requires { from ≡ to }
    ensures { IfOk result (λ made. made ≡ between from low high) }
{
    let least = Cond::Test {
        left: from,
        op: Cmp::Ge,
        right: Operand::Literal(number(low)),
    };
    let limit = Cond::Test {
        left: to,
        op: Cmp::Lt,
        right: Operand::Literal(number(high)),
    };
    Ok(Cond::All(List::from_vec(vec![in alloc; least, limit]?)))
}

/// The rows of these keys.
fn selection(alloc: Global, low: u32, high: u32) -> Result<QueryText, AllocError>
    ensures { IfOk result (λ made. made ≡ selection low high) }
{
    let (from, to) = (column(alloc, "id")?, column(alloc, "id")?);
    Ok(QueryText {
        items: Items::All,
        left: source(alloc, "t")?,
        join: None,
        cond: Some(between(alloc, from, to, low, high)?),
        limit: None,
    })
}

fn boss_join(alloc: Global) -> Result<Join, AllocError>
    ensures { IfOk result (λ made. Some made ≡ (join_query 0 0).join) }
{
    Ok(Join {
        right: source(alloc, "b")?,
        left_ref: column_of(alloc, "a", "boss")?,
        right_ref: column_of(alloc, "b", "id")?,
    })
}

/// The rows of these keys, each with its boss.
fn join_query(alloc: Global, low: u32, high: u32) -> Result<QueryText, AllocError>
    ensures { IfOk result (λ made. made ≡ join_query low high) }
{
    let items = vec![in alloc;
        column_of(alloc, "a", "id")?,
        column_of(alloc, "b", "name")?,
    ]?;
    let (from, to) = (column_of(alloc, "a", "id")?, column_of(alloc, "a", "id")?);
    Ok(QueryText {
        items: Items::Refs(List::from_vec(items)),
        left: source(alloc, "a")?,
        join: Some(boss_join(alloc)?),
        cond: Some(between(alloc, from, to, low, high)?),
        limit: None,
    })
}

/// The query of this number, by the next two words.
#[tactic(auto, unfolding(crate::specs::Workload::query))]
fn query(alloc: Global, words: &mut Words, n: u32, j: u32) -> Result<QueryText, AllocError>
    requires steps { n ≤ max_steps }
    requires number { j < 16 }
    requires place { words.old.place ≡ 2 * (n + j) }
    ensures query { IfOk result (λ made. made ≡ query (word_of words.old.key) (keys_for n) n j) }
    ensures words { words.new ≡ record words.old { place = words.old.place + 2 } }
{
    let low = words.next() % keys_for(n);
    let high = low + words.next() % 64;
    if j % 2 == 0 {
        selection(alloc, low, high)
    } else {
        join_query(alloc, low, high)
    }
}

/// The queries behind n steps.
#[tactic(auto, unfolding(crate::specs::Workload::queries_of))]
pub fn queries(alloc: Global, words: &mut Words, n: u32) -> Result<List<QueryText>, AllocError>
    requires steps { n ≤ max_steps }
    requires place { words.old.place ≡ 2 * n }
    ensures { IfOk result (λ made. made ≡ queries_of (word_of words.old.key) n) }
{
    let mut queries = Vec::with_capacity(alloc, QUERIES as usize)?;
    for j in 0..QUERIES {
        queries.push(query(alloc, words, n, j)?)?;
    }
    Ok(List::from_vec(queries))
}
