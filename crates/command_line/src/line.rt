//! From the words after the program's name to the files and the time that they name, and to what else they ask for.
ghost use Rattle.std.specs.Prelude.{◌≡◌, ◌≤◌, IfOk, IfErr, IfSome, Some, true, is_some, option_map, codes, string_bytes};
ghost use Rattle.clap.specs.Words.{first_of, kind_of, one_of};
ghost use Rattle.command_line.specs.Command.{given_rows, HasTimeInRange, IsFaultOfWords, IsFlag, IsLineIn, IsLineOfWords, IsTakenByCommand, IsTime, fault_from, latest_time, microseconds_in};
ghost use Rattle.command_line.specs.declared.fault.LineFault.TheVariants.{Memory};

use crate::LineFault;
use crate::command::play_command;
use clap::error::ErrorKind;
use clap::{ArgMatches, Error};
use std::alloc::{AllocError, Global};

/// The files and the time that a command line names, and what else it asks for.
#[derive(Debug, Drop)]
pub struct Line {
    /// The configuration.
    pub config: String,
    /// The trace of network A.
    pub a: String,
    /// The trace of network B.
    pub b: String,
    /// The time of the report, in microseconds, 0 to 9223372036854775807. None if it isn't given: the
    /// report is then of the greatest arrival time.
    pub at: Option<u64>,
    /// Whether each network's trace is played in a thread of its own.
    pub threads: bool,
    /// Whether the line of a configuration's fault is told, and what its key may have.
    pub explain: bool,
}

/// Reads the words after the program's name. The fault is Shown if they ask for help or the version, Refused if
/// they are no command line of the program, each with the text for the user, and Memory if memory
/// ran out.
#[tactic(auto, unfolding(crate::specs::Command::IsLineOfWords))]
pub fn line_of(alloc: Global, words: &[String]) -> Result<Line, LineFault>
    ensures taken { IfOk result (λ _. IsTakenByCommand words.now) }
    ensures line { IfOk result (λ line. IsLineOfWords words.now line) }
    ensures time { IfOk result HasTimeInRange }
    ensures fault { IfErr result (λ fault. IsFaultOfWords words.now fault) }
    ensures memory { IfErr result (λ fault. IsTakenByCommand words.now → fault ≡ Memory) }
{
    match play_command(alloc)?.try_get_matches_from(words) {
        Ok(matches) => Ok(line_from(alloc, &matches)?),
        Err(error) => Err(fault_from(error)),
    }
}

/// The line of a command line that names all three files.
fn line_from(alloc: Global, matches: &ArgMatches<'_>) -> Result<Line, AllocError>
    requires config { is_some (first_of (codes "config") (given_rows matches.now)) ≡ true }
    requires a { is_some (first_of (codes "a") (given_rows matches.now)) ≡ true }
    requires b { is_some (first_of (codes "b") (given_rows matches.now)) ≡ true }
    requires read { one_of (codes "at") (given_rows matches.now) ≡ first_of (codes "at") (given_rows matches.now) }
    requires at { IfSome (first_of (codes "at") (given_rows matches.now)) IsTime }
    ensures line { IfOk result (λ line. IsLineIn (given_rows matches.now) line) }
    ensures time { IfOk result HasTimeInRange }
{
    Ok(Line {
        config: value_of(alloc, matches, "config")?,
        a: value_of(alloc, matches, "a")?,
        b: value_of(alloc, matches, "b")?,
        at: time_of(matches, "at"),
        threads: flag_of(matches, "threads"),
        explain: flag_of(matches, "explain"),
    })
}

/// The value of an option that was given.
fn value_of(alloc: Global, matches: &ArgMatches<'_>, name: &str) -> Result<String, AllocError>
    requires { is_some (first_of name.now (given_rows matches.now)) ≡ true }
    ensures { IfOk result (λ value.
        first_of name.now (given_rows matches.now) ≡ Some (string_bytes value)) }
{
    let value = matches.get_str(name).unwrap();
    String::from_str(alloc, value)
}

/// The time of an option, in microseconds. None if it wasn't given.
fn time_of(matches: &ArgMatches<'_>, name: &str) -> Option<u64>
    requires read { one_of name.now (given_rows matches.now) ≡ first_of name.now (given_rows matches.now) }
    requires time { IfSome (first_of name.now (given_rows matches.now)) IsTime }
    ensures value { option_map microseconds_in (first_of name.now (given_rows matches.now)) ≡ result }
    ensures range { IfSome result (λ time. time ≤ latest_time) }
{
    matches.get_one(name)
}

/// Whether a flag was given.
fn flag_of(matches: &ArgMatches<'_>, name: &str) -> bool
    ensures { IsFlag (one_of name.now (given_rows matches.now)) result }
{
    matches.get_flag(name)
}

/// The fault of an error of the command.
fn fault_from(error: Error) -> LineFault
    ensures { result ≡ fault_from (kind_of error) error }
{
    match error.kind() {
        ErrorKind::DisplayHelp | ErrorKind::DisplayVersion => LineFault::Shown(error),
        ErrorKind::OutOfMemory => LineFault::Memory,
        _ => LineFault::Refused(error),
    }
}
