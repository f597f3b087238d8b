//! What a journal says of an answer that a client accepts.
ghost use Rattle.std.specs.Prelude.{◌≡◌, ◌<◌, ◌≤◌, ◌-◌, List, IfOk, IfSome, None, Some};
ghost use Rattle.vo_spec.specs.declared.checks.Verdict.TheVariants.{Unsigned};
ghost use Rattle.vo_spec.specs.declared.tables.Table.{Table};
ghost use Rattle.vo_spec.specs.Collides.{Collides};
ghost use Rattle.vo_spec.specs.Conditions.{query_of};
ghost use Rattle.vo_spec.specs.Records.{catalog_digest};
ghost use Rattle.vo_spec.specs.Replies.{FitsReply};
ghost use Rattle.vo_spec.specs.Honest.{RepresentTables, catalog_of};
ghost use Rattle.vo_spec.specs.Audits.{IsVerdict};
ghost use Rattle.vo_laws.specs.FittingTables.{FitTables};
ghost use Rattle.vo_format.specs.View.{reply_of};
ghost use Rattle.vo_audit.specs.Auditing.{HasPassed, IsBefore, IsDepartureIn, IsHeldVerdict, IsReadAt, seen_answer};
ghost use Rattle.vo_audit.specs.Showing.{AreFound, AreOfProofs, AreOfReply, Shows};

use crate::departures::collision_of_batch;
use crate::evidence::evidence;
use crate::holding::holds;
use crate::outcome_test::is_result;
use owner_state::{Departure, LentEntry, OwnedJournal};
use std::alloc::{AllocError, Global};
use stored_tables::StoredTables;
use vo_format::Reply;
use vo_spec::{Answer, Collision, List, QueryText, Verdict};

/// The journal of so many entries does not hold the reply's record.
fn unsigned_verdict(alloc: Global, entries: usize, reply: &Reply<'_>) -> Result<Verdict, AllocError>
    requires { 0 < entries }
    ensures { IfOk result (λ verdict. verdict
        ≡ Unsigned reply.now.rec reply.now.signature.now (entries - 1)) }
{
    let signature = List::from_vec(Vec::from_slice(alloc, reply.signature)?);
    Ok(Verdict::Unsigned {
        rec: reply.rec,
        signature,
        last: entries as u64 - 1,
    })
}

/// The verdict by the tables of a version whose record is the reply's.
fn verdict_by(
    alloc: Global,
    tables: &StoredTables,
    query: &QueryText,
    reply: &Reply<'_>,
    answer: &Answer,
) -> Result<Verdict, AllocError>
    requires fits { FitsReply (reply_of reply.now) }
    requires passed { HasPassed (query_of query.now) (reply_of reply.now) }
    requires answer { answer.now ≡ seen_answer (query_of query.now) (reply_of reply.now) }
    requires held { reply.now.rec.catalog ≡ catalog_digest (catalog_of tables.now) }
    ensures held { (plain : List Table) → RepresentTables tables.now plain → FitTables plain
        → IfOk result (λ verdict. IsHeldVerdict plain (query_of query.now) answer.now verdict) }
    ensures shown { IfOk result (λ verdict.
        Shows verdict (AreOfReply (query_of query.now) (reply_of reply.now) tables.now)) }
{
    let exact = Verdict::Exact {
        version: answer.version,
    };
    match evidence(alloc, tables, query, reply)? {
        None => Ok(exact),
        Some(found) => {
            if is_result(alloc, tables, query, &answer.outcome)? {
                Ok(exact)
            } else {
                Ok(Verdict::Collides(found))
            }
        },
    }
}

/// The departure, where the version is not before it.
fn departure_by<'o>(owned: &'o OwnedJournal<'_>, version: u64) -> Option<&'o Departure>
    ensures before { result ≡ None → IsBefore version owned.now.departure }
    ensures there { IfSome result (λ departure. owned.now.departure ≡ Some departure.now) }
    ensures within { IfSome result (λ departure. departure.now.index ≤ version) }
{
    match &owned.departure {
        Some(departure) if departure.index <= version => Some(departure),
        Some(_) | None => None,
    }
}

/// The two byte strings of one digest by which the owner was fooled.
fn collision_at(
    alloc: Global,
    departure: &Departure,
    entries: &[LentEntry<'_>],
) -> Result<Collision, AllocError>
    requires { IsDepartureIn entries.now departure.now }
    ensures collides { IfOk result (λ found. Collides found.0 found.1) }
    ensures strings { IfOk result (λ found.
        AreOfProofs entries.now departure.now.index found.0 found.1) }
{
    match entries.get(departure.index as usize) {
        Some(entry) => {
            collision_of_batch(alloc, &departure.tables, entry.batch(), entry.proofs())
        },
        None => unreachable!(),
    }
}

/// The verdict by the honest tables of a version at which the owner's roots have departed from
/// them.
fn verdict_behind(
    alloc: Global,
    tables: &StoredTables,
    departure: &Departure,
    entries: &[LentEntry<'_>],
    query: &QueryText,
    answer: &Answer,
) -> Result<Verdict, AllocError>
    requires { IsDepartureIn entries.now departure.now }
    ensures held { (plain : List Table) → RepresentTables tables.now plain
        → IfOk result (λ verdict. IsHeldVerdict plain (query_of query.now) answer.now verdict) }
    ensures shown { IfOk result (λ verdict.
        Shows verdict (AreOfProofs entries.now departure.now.index)) }
{
    let exact = is_result(alloc, tables, query, &answer.outcome)?;
    if exact {
        return Ok(Verdict::Exact {
            version: answer.version,
        });
    }
    Ok(Verdict::Collides(collision_at(alloc, departure, entries)?))
}

/// The verdict by a journal that was read with the tables of the reply's version.
pub(crate) fn verdict_on(
    alloc: Global,
    owned: &OwnedJournal<'_>,
    query: &QueryText,
    reply: &Reply<'_>,
    answer: &Answer,
) -> Result<Verdict, AllocError>
    requires read { IsReadAt reply.now.rec.version owned.now }
    requires fits { FitsReply (reply_of reply.now) }
    requires passed { HasPassed (query_of query.now) (reply_of reply.now) }
    requires answer { answer.now ≡ seen_answer (query_of query.now) (reply_of reply.now) }
    ensures verdict { IfOk result (λ verdict.
        IsVerdict owned.now.entries (query_of query.now) (reply_of reply.now) answer.now verdict) }
    ensures shown { IfOk result (λ verdict. Shows verdict (AreFound (query_of query.now)
        (reply_of reply.now) owned.now.entries owned.now.departure)) }
{
    if !holds(owned.entries.as_slice(), &reply.rec) {
        return unsigned_verdict(alloc, owned.entries.len(), reply);
    }
    match &owned.tables {
        Some(tables) => match departure_by(owned, reply.rec.version) {
            Some(departure) => {
                verdict_behind(
                    alloc,
                    tables,
                    departure,
                    owned.entries.as_slice(),
                    query,
                    answer,
                )
            },
            None => verdict_by(alloc, tables, query, reply, answer),
        },
        None => unreachable!(),
    }
}
