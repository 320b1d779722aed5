// The command line, as clap reads it.
ghost use Rattle.std.specs.Prelude.{◌≡◌, IfOk, map, false};
ghost use Rattle.clap.specs.Words.{app_of, rule_of};
ghost use Rattle.clap.specs.declared.builder.command.Command.TheViews.{out-Command};
ghost use Rattle.command_words.specs.CommandLine.{command, naming_one, required_texts, with_command};
ghost use Rattle.command_words.specs.Rows.{row_of};

use crate::command::Row;
use clap::{Arg, Command};
use std::alloc::{AllocError, Global};

/// The command line that has this one command, which has to be named.
pub fn command_line<'a>(alloc: Global, row: &Row) -> Result<Command<'a>, AllocError>
    ensures { IfOk result (λ line. app_of line ≡ with_command naming_one (row_of row.now)) }
{
    let command = command(alloc, row)?;
    naming_one(alloc).subcommand(command)
}

/// A command line that has to name a command, and has none yet.
fn naming_one<'a>(alloc: Global) -> Command<'a>
    ensures { app_of result ≡ naming_one }
{
    Command::new(alloc, "lamauth").subcommand_required(true)
}

/// The command of a row.
fn command<'a>(alloc: Global, row: &Row) -> Result<Command<'a>, AllocError>
    ensures local { IfOk result (λ command. (out-Command command).has_globals ≡ false) }
    ensures shape { IfOk result (λ made. app_of made ≡ command (row_of row.now)) }
{
    Command::new(alloc, row.name).arg(required_texts(alloc, row.arguments, row.least))
}

/// The argument that takes the texts of a command: one for each of these names, of which all behind the least number may be left out.
fn required_texts<'a>(alloc: Global, names: &'a [&'a str], least: usize) -> Arg<'a>
    ensures rule { rule_of result ≡ required_texts (map (λ name. name.now) names.entry.now) least }
    ensures local { result.global ≡ false }
{
    Arg::new(alloc, "ARGUMENTS")
        .num_args(least..=names.len())
        .value_names(names)
        .required(true)
}
