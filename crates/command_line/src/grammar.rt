//! The command as `clap` is told of it.
ghost use Rattle.std.specs.Prelude.{◌≡◌, IfOk, false};
ghost use Rattle.clap.specs.Words.{rule_of};
ghost use Rattle.command_line.specs.Grammar.{number_option, text_option, path_argument, play_command, demo_command, check_command, index_command, playing_command, command, IsCommandOf};

use clap::{Arg, Command};
use std::alloc::{AllocError, Global};

/// An option with a number, and the number that it has where it isn't given.
fn number_option<'a>(alloc: Global, name: &'a str, default: &'a str) -> Arg<'a>
    ensures rule { rule_of result ≡ number_option name.entry.now default.entry.now }
    ensures local { result.global ≡ false }
{
    Arg::new(alloc, name).long(name).default_value(default)
}

/// An option with a text, which need not be given.
fn text_option<'a>(alloc: Global, name: &'a str) -> Arg<'a>
    ensures rule { rule_of result ≡ text_option name.entry.now }
    ensures local { result.global ≡ false }
{
    Arg::new(alloc, name).long(name)
}

/// A path that has to be given. It stands behind the subcommand, or behind `--` where it begins with a `-`; a `-` alone is a
/// plain word.
fn path_argument<'a>(alloc: Global) -> Arg<'a>
    ensures rule { rule_of result ≡ path_argument }
    ensures local { result.global ≡ false }
{
    Arg::new(alloc, "path").required(true)
}

/// The subcommand `play`.
fn play_command<'a>(alloc: Global) -> Result<Command<'a>, AllocError>
    ensures { IfOk result (IsCommandOf play_command) }
{
    Command::new(alloc, "play")
        .arg(number_option(alloc, "workers", "0"))?
        .arg(text_option(alloc, "store"))
}

/// The subcommand `demo`.
fn demo_command<'a>(alloc: Global) -> Result<Command<'a>, AllocError>
    ensures { IfOk result (IsCommandOf demo_command) }
{
    Command::new(alloc, "demo")
        .arg(number_option(alloc, "seed", "1"))?
        .arg(number_option(alloc, "files", "8"))?
        .arg(number_option(alloc, "edits", "32"))?
        .arg(number_option(alloc, "workers", "0"))
}

/// The subcommand `check`.
fn check_command<'a>(alloc: Global) -> Result<Command<'a>, AllocError>
    ensures { IfOk result (IsCommandOf check_command) }
{
    Command::new(alloc, "check")
        .arg(path_argument(alloc))?
        .arg(number_option(alloc, "workers", "0"))
}

/// The subcommand `index`.
fn index_command<'a>(alloc: Global) -> Command<'a>
    ensures { IsCommandOf index_command result }
{
    Command::new(alloc, "index")
}

/// The command with the two subcommands that play a script.
fn playing_command<'a>(alloc: Global) -> Result<Command<'a>, AllocError>
    ensures { IfOk result (IsCommandOf playing_command) }
{
    Command::new(alloc, "ide")
        .subcommand(play_command(alloc)?)?
        .subcommand(demo_command(alloc)?)
}

/// The whole command.
pub fn command<'a>(alloc: Global) -> Result<Command<'a>, AllocError>
    ensures { IfOk result (IsCommandOf command) }
{
    playing_command(alloc)?
        .subcommand(check_command(alloc)?)?
        .subcommand(index_command(alloc))
}
