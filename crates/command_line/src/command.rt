//! The command and its options, as `clap` takes them.
ghost use Rattle.std.specs.Prelude.{◌≡◌, IfOk, false};
ghost use Rattle.clap.specs.Words.{app_of, rule_of};
ghost use Rattle.command_line.specs.Command.{bare_command, file_option, flag_option, play_command, time_option};

use clap::{Arg, ArgAction, Command, value_parser};
use std::alloc::{AllocError, Global};

const THREADS: &str =
    "a thread for each network, as fast as it can: which frame a link takes first isn't told by its time";

const EXPLAIN: &str =
    "of a configuration that is refused, say its line, too, and what the key may have";

const TIME_OF_THE_REPORT: &str =
    "the time of the report, in microseconds; by default the greatest arrival time";

/// The version that `--version` tells: that of the newest heading of CHANGELOG.
const VERSION: &str = "0.4.0";

/// The command of the program, with its six options.
pub(crate) fn play_command<'a>(alloc: Global) -> Result<Command<'a>, AllocError>
    ensures { IfOk result (λ command. app_of command ≡ play_command) }
{
    bare_command(alloc)
        .arg(file_option(alloc, "config", "the configuration, a TOML file"))?
        .arg(file_option(alloc, "a", "the trace of network A"))?
        .arg(file_option(alloc, "b", "the trace of network B"))?
        .arg(time_option(alloc, "at", TIME_OF_THE_REPORT))?
        .arg(flag_option(alloc, "threads", THREADS))?
        .arg(flag_option(alloc, "explain", EXPLAIN))
}

/// The command without options. Its words are those after the program's name.
fn bare_command<'a>(alloc: Global) -> Command<'a>
    ensures { app_of result ≡ bare_command }
{
    Command::new(alloc, "afdx_play")
        .about("Plays the hex traces of two redundant networks through a receiver")
        .version(VERSION)
        .no_binary_name(true)
}

/// The option `--NAME FILE`. It has to be given.
fn file_option<'a>(alloc: Global, name: &'a str, help: &'a str) -> Arg<'a>
    ensures rule { rule_of result ≡ file_option name.entry.now }
    ensures local { result.global ≡ false }
{
    Arg::new(alloc, name)
        .long(name)
        .action(ArgAction::Set)
        .value_name("FILE")
        .required(true)
        .help(help)
}

/// The option `--NAME MICROSECONDS`, a number from 0 to 9223372036854775807. It may be left out.
fn time_option<'a>(alloc: Global, name: &'a str, help: &'a str) -> Arg<'a>
    ensures rule { rule_of result ≡ time_option name.entry.now }
    ensures local { result.global ≡ false }
{
    Arg::new(alloc, name)
        .long(name)
        .action(ArgAction::Set)
        .value_name("MICROSECONDS")
        .value_parser(value_parser!(u64).range(..=i64::MAX))
        .help(help)
}

/// The option `--NAME`. It has no value, and may be left out.
fn flag_option<'a>(alloc: Global, name: &'a str, help: &'a str) -> Arg<'a>
    ensures rule { rule_of result ≡ flag_option name.entry.now }
    ensures local { result.global ≡ false }
{
    Arg::new(alloc, name)
        .long(name)
        .action(ArgAction::SetTrue)
        .help(help)
}
