//! The words, read by the commands.
ghost use Rattle.std.specs.Prelude.{◌≡◌, map, option_map, string_bytes, IfOk, IfSome, IsTrue, ◌↔◌};
ghost use Rattle.clap.specs.Words.{kind_of, found_of, rows_of, first_of, subcommand_rows_of};
ghost use Rattle.cli_args.specs.PlainRequest.{request_in, used_request, command_request, keygen_request, seal_request, answer_request, check_request, audit_request, meet_request, own_request, reply_request, serve_request, ask_request, generate_request, connection_count, step_count, HasSteps, given_at, given_shape, given_height, given_levels, given_least, written_height, written_levels};
ghost use Rattle.cli_args.specs.Shapes.{height_number, levels_number, plain_shape};
ghost use Rattle.cli_args.specs.Request.{plain_command, plain_commitment, plain_request, plain_service};

use crate::commands::program;
use crate::numbers::number_in;
use crate::request::{Command, Commitment, Height, KeyShape, Levels, OwnerAudit, Request, Service};
use clap::error::ErrorKind;
use clap::{ArgMatches, Error};
use std::alloc::{AllocError, Global};

/// How many steps a workload may have.
const MAX_STEPS: u32 = 100_000;

/// What the words ask for, the program's name first. None are refused words: those that `clap`
/// refuses or answers with help, and a number that the command doesn't take.
pub fn read_words<'a>(alloc: Global, words: &'a [String]) -> Result<Option<Request<'a>>, AllocError>
    ensures request { IfOk result (λ request. option_map plain_request request
        ≡ request_in (map string_bytes words.entry.now)) }
    ensures steps { IfOk result (λ request. IfSome (option_map plain_request request) HasSteps) }
{
    match program(alloc)?.try_get_matches_from(words) {
        Ok(matches) => Ok(used_request(&matches)),
        Err(error) => {
            if is_of_memory(&error) {
                return Err(AllocError);
            }
            Ok(None)
        }
    }
}

fn is_of_memory(error: &Error) -> bool
    ensures { IsTrue result ↔ (kind_of error.now ≡ ErrorKind.OutOfMemory) }
{
    matches!(error.kind(), ErrorKind::OutOfMemory)
}

/// What the command that was used asks for.
fn used_request<'a>(matches: &ArgMatches<'a>) -> Option<Request<'a>>
    ensures { option_map plain_request result ≡ used_request (subcommand_rows_of matches.now) }
{
    let (name, used) = matches.subcommand()?;
    if name == "serve" {
        Some(Request::Serve(serve_request(used)?))
    } else if name == "own" {
        Some(Request::Own(own_request(used)?))
    } else {
        Some(Request::Command(command_request(name, used)?))
    }
}

/// What a command asks for that writes once, as it ends.
#[tactic(auto, unfolding(crate::specs::PlainRequest::command_request))]
fn command_request<'a>(name: &str, used: &ArgMatches<'a>) -> Option<Command<'a>>
    ensures { option_map plain_command result
        ≡ command_request name.now (rows_of (found_of used.now)) }
{
    if name == "keygen" {
        keygen_request(used)
    } else if name == "seal" {
        seal_request(used)
    } else if name == "gen" {
        generate_request(used)
    } else {
        reply_request(name, used)
    }
}

/// What a command about a query and its replies asks for.
#[tactic(auto, unfolding(crate::specs::PlainRequest::reply_request))]
fn reply_request<'a>(name: &str, used: &ArgMatches<'a>) -> Option<Command<'a>>
    ensures { option_map plain_command result
        ≡ reply_request name.now (rows_of (found_of used.now)) }
{
    if name == "answer" {
        answer_request(used)
    } else if name == "check" {
        check_request(used)
    } else if name == "audit" {
        audit_request(used)
    } else if name == "meet" {
        meet_request(used)
    } else if name == "ask" {
        ask_request(used)
    } else {
        None
    }
}

fn keygen_request<'a>(used: &ArgMatches<'a>) -> Option<Command<'a>>
    ensures { option_map plain_command result ≡ keygen_request (rows_of (found_of used.now)) }
{
    let seed = text_of(used, "seed")?;
    let shape = shape_of(used)?;
    Some(Command::Keygen { seed, shape })
}

fn seal_request<'a>(used: &ArgMatches<'a>) -> Option<Command<'a>>
    ensures { option_map plain_command result ≡ seal_request (rows_of (found_of used.now)) }
{
    let seed = text_of(used, "seed")?;
    let script = text_of(used, "script")?;
    let shape = shape_of(used)?;
    Some(Command::Seal {
        seed,
        script,
        shape,
    })
}

fn own_request<'a>(used: &ArgMatches<'a>) -> Option<Commitment<'a>>
    ensures { option_map plain_commitment result ≡ own_request (rows_of (found_of used.now)) }
{
    let seed = text_of(used, "seed")?;
    let address = text_of(used, "address")?;
    let script = text_of(used, "script")?;
    let shape = shape_of(used)?;
    Some(Commitment {
        seed,
        address,
        script,
        shape,
    })
}

fn answer_request<'a>(used: &ArgMatches<'a>) -> Option<Command<'a>>
    ensures { option_map plain_command result ≡ answer_request (rows_of (found_of used.now)) }
{
    let key = text_of(used, "key")?;
    let journal = text_of(used, "journal")?;
    let query = text_of(used, "query")?;
    let at = version_of(used)?;
    Some(Command::Answer {
        key,
        journal,
        query,
        at,
    })
}

fn serve_request<'a>(used: &ArgMatches<'a>) -> Option<Service<'a>>
    ensures { option_map plain_service result ≡ serve_request (rows_of (found_of used.now)) }
{
    let address = text_of(used, "address")?;
    let key = text_of(used, "key")?;
    let journal = text_of(used, "journal")?;
    let count = connection_count(text_of(used, "count")?)?;
    Some(Service {
        address,
        key,
        journal,
        count,
    })
}

fn check_request<'a>(used: &ArgMatches<'a>) -> Option<Command<'a>>
    ensures { option_map plain_command result ≡ check_request (rows_of (found_of used.now)) }
{
    let key = text_of(used, "key")?;
    let query = text_of(used, "query")?;
    let reply = text_of(used, "reply")?;
    let least = least_of(used)?;
    Some(Command::Check {
        key,
        query,
        reply,
        least,
    })
}

fn ask_request<'a>(used: &ArgMatches<'a>) -> Option<Command<'a>>
    ensures { option_map plain_command result ≡ ask_request (rows_of (found_of used.now)) }
{
    let address = text_of(used, "address")?;
    let key = text_of(used, "key")?;
    let query = text_of(used, "query")?;
    let at = version_of(used)?;
    let least = least_of(used)?;
    Some(Command::Ask {
        address,
        key,
        query,
        at,
        least,
    })
}

fn audit_request<'a>(used: &ArgMatches<'a>) -> Option<Command<'a>>
    ensures { option_map plain_command result ≡ audit_request (rows_of (found_of used.now)) }
{
    let key = text_of(used, "key")?;
    let journal = text_of(used, "journal")?;
    let query = text_of(used, "query")?;
    let reply = text_of(used, "reply")?;
    let shape = shape_of(used)?;
    Some(match text_of(used, "seed") {
        None => Command::Audit {
            key,
            journal,
            query,
            reply,
        },
        Some(seed) => Command::Explain(OwnerAudit {
            key,
            journal,
            query,
            reply,
            seed,
            shape,
        }),
    })
}

fn meet_request<'a>(used: &ArgMatches<'a>) -> Option<Command<'a>>
    ensures { option_map plain_command result ≡ meet_request (rows_of (found_of used.now)) }
{
    let key = text_of(used, "key")?;
    let query = text_of(used, "query")?;
    let first = text_of(used, "first")?;
    let second = text_of(used, "second")?;
    Some(Command::Meet {
        key,
        query,
        first,
        second,
    })
}

fn generate_request<'a>(used: &ArgMatches<'a>) -> Option<Command<'a>>
    ensures { option_map plain_command result ≡ generate_request (rows_of (found_of used.now)) }
{
    let steps = step_count(text_of(used, "steps")?)?;
    let number = number_in(text_of(used, "number")?)?;
    Some(Command::Generate { steps, number })
}

/// The word or the option's value under this name.
fn text_of<'a>(used: &ArgMatches<'a>, id: &str) -> Option<&'a str>
    ensures { option_map (λ text. text.now) result ≡ first_of id.now (rows_of (found_of used.now)) }
{
    used.get_str(id)
}

fn shape_of(used: &ArgMatches<'_>) -> Option<KeyShape>
    ensures { option_map plain_shape result ≡ given_shape (rows_of (found_of used.now)) }
{
    let height = height_of(used)?;
    let levels = levels_of(used)?;
    Some(KeyShape { height, levels })
}

fn height_of(used: &ArgMatches<'_>) -> Option<Height>
    ensures { option_map height_number result ≡ given_height (rows_of (found_of used.now)) }
{
    match text_of(used, "height") {
        None => Some(Height::Five),
        Some(text) => height_in(text),
    }
}

fn levels_of(used: &ArgMatches<'_>) -> Option<Levels>
    ensures { option_map levels_number result ≡ given_levels (rows_of (found_of used.now)) }
{
    match text_of(used, "levels") {
        None => Some(Levels::One),
        Some(text) => levels_in(text),
    }
}

fn least_of(used: &ArgMatches<'_>) -> Option<u64>
    ensures { result ≡ given_least (rows_of (found_of used.now)) }
{
    match text_of(used, "least") {
        None => Some(0),
        Some(text) => number_in(text),
    }
}

/// The version that is asked for, if one is; none is what is written there and isn't a number.
fn version_of(used: &ArgMatches<'_>) -> Option<Option<u64>>
    ensures { result ≡ given_at (rows_of (found_of used.now)) }
{
    match text_of(used, "at") {
        None => Some(None),
        Some(text) => Some(Some(number_in(text)?)),
    }
}

fn connection_count(text: &str) -> Option<u32>
    ensures { result ≡ connection_count text.now }
{
    match number_in(text)?.try_into() {
        Ok(0) => None,
        Ok(count) => Some(count),
        Err(_) => None,
    }
}

fn step_count(text: &str) -> Option<u32>
    ensures { result ≡ step_count text.now }
{
    match number_in(text)? {
        0 => None,
        count if count <= MAX_STEPS as u64 => Some(count as u32),
        _ => None,
    }
}

fn height_in(text: &str) -> Option<Height>
    ensures { option_map height_number result ≡ written_height text.now }
{
    if text == "5" {
        Some(Height::Five)
    } else if text == "10" {
        Some(Height::Ten)
    } else {
        None
    }
}

fn levels_in(text: &str) -> Option<Levels>
    ensures { option_map levels_number result ≡ written_levels text.now }
{
    if text == "1" {
        Some(Levels::One)
    } else if text == "2" {
        Some(Levels::Two)
    } else {
        None
    }
}
