//! The commands, with their words and options, as `clap` takes them.
ghost use Rattle.std.specs.Prelude.{◌≡◌, IfOk, false};
ghost use Rattle.clap.specs.Words.{app_of, rule_of};
ghost use Rattle.clap.specs.declared.builder.command.Command.TheViews.{out-Command as fields_of};
ghost use Rattle.cli_args.specs.Commands.{program_app, with_command};
ghost use Rattle.cli_args.specs.Forms.{app_for, rule_for};

use clap::{Arg, Command};
use std::alloc::{AllocError, Global};

/// A command, and what it takes.
struct Form<'a> {
    name: &'a str,
    takes: &'a [Argument<'a>],
}

/// An argument, by its id.
#[derive(Clone, Copy)]
enum Argument<'a> {
    /// A word that must be there, in its place.
    Word(&'a str),
    /// An option with a value.
    Named(&'a str),
}

use Argument::{Named, Word};

const FORMS: [Form<'static>; 10] = [
    Form {
        name: "keygen",
        takes: &[Word("seed"), Named("height"), Named("levels")],
    },
    Form {
        name: "seal",
        takes: &[
            Word("seed"),
            Word("script"),
            Named("height"),
            Named("levels"),
        ],
    },
    Form {
        name: "own",
        takes: &[
            Word("seed"),
            Word("address"),
            Word("script"),
            Named("height"),
            Named("levels"),
        ],
    },
    Form {
        name: "answer",
        takes: &[Word("key"), Word("journal"), Word("query"), Named("at")],
    },
    Form {
        name: "serve",
        takes: &[Word("address"), Word("key"), Word("journal"), Word("count")],
    },
    Form {
        name: "check",
        takes: &[Word("key"), Word("query"), Word("reply"), Named("least")],
    },
    Form {
        name: "ask",
        takes: &[
            Word("address"),
            Word("key"),
            Word("query"),
            Named("at"),
            Named("least"),
        ],
    },
    Form {
        name: "audit",
        takes: &[
            Word("key"),
            Word("journal"),
            Word("query"),
            Word("reply"),
            Named("seed"),
            Named("height"),
            Named("levels"),
        ],
    },
    Form {
        name: "meet",
        takes: &[Word("key"), Word("query"), Word("first"), Word("second")],
    },
    Form {
        name: "gen",
        takes: &[Word("steps"), Word("number")],
    },
];

/// The whole command line.
pub fn program<'a>(alloc: Global) -> Result<Command<'a>, AllocError>
    ensures { IfOk result (λ made. app_of made ≡ program_app) }
{
    let mut program = Command::new(alloc, "vo_cli").subcommand_required(true);
    for form in &FORMS {
        program = add_command(alloc, program, form)?;
    }
    Ok(program)
}

fn add_command<'a>(
    alloc: Global,
    program: Command<'a>,
    form: &Form<'a>,
) -> Result<Command<'a>, AllocError>
    ensures { IfOk result (λ made. app_of made ≡ with_command (app_of program.entry)
        (app_for form.now)) }
{
    match command(alloc, form) {
        Ok(command) => program.subcommand(command),
        Err(error) => Err(error),
    }
}

fn command<'a>(alloc: Global, form: &Form<'a>) -> Result<Command<'a>, AllocError>
    ensures shape { IfOk result (λ made. app_of made ≡ app_for form.now) }
    ensures local { IfOk result (λ made. (fields_of made).has_globals ≡ false) }
{
    let mut command = Command::new(alloc, form.name);
    for takes in form.takes {
        command = command.arg(arg_for(alloc, *takes))?;
    }
    Ok(command)
}

fn arg_for<'a>(alloc: Global, takes: Argument<'a>) -> Arg<'a>
    ensures rule { rule_of result ≡ rule_for takes.entry }
    ensures local { result.global ≡ false }
{
    match takes {
        Word(id) => Arg::new(alloc, id).required(true),
        Named(id) => Arg::new(alloc, id).long(id),
    }
}
