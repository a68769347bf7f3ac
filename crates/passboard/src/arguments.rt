//! The options, and the board that they ask for.
ghost use Rattle.std.specs.Prelude.{◌≡◌, IfSome};
ghost use Rattle.clap.specs.Words.{found_of};
ghost use Rattle.passboard.specs.Options.{keeping_named, kind_named, AskedFor};

use calls::Mode;
use clap::{Arg, ArgAction, ArgMatches, Command, value_parser};
use std::alloc::{AllocError, Global};
use steptext::mode;

static MODES: [&str; 3] = ["SW", "SO", "WO"];

static KEEPINGS: [&str; 2] = ["eager", "lazy"];

static KINDS: [&str; 5] = ["coil", "length", "marks", "toggles", "extremes"];

const ABOUT: &str = "\
Makes a pass board and answers, line by line, the calls that it reads from standard input.";

const DETAILS: &str = "\
Lines:
  register STATION NEWCOMER MODE          brings in a station, in mode SW, SO or WO
  signal STATION                          signs the station's next pass
  wait STATION                            observes its next pass
  drop STATION                            the station leaves
  send STATION LENGTH DEVIATION MARKS     a reading for the pass that it signs next
  result STATION                          the last pass that it observed, and its total
  view STATION                            its mode, and the passes signed and observed
  holders STATION                         how many stations it waits for, and which
  compare STATION STATION                 whether the first view happened before the second,
                                          and the second before the first
Blank lines and lines that begin with # are skipped. A wrong line is told on standard error and
skipped.

Status: 0 at the end of the input, 1 for a wrong option, a board that cannot be made, a reader or
writer that failed, and with --strict a wrong line.

Example:
  printf 'register 0 1 SW\\nsignal 0\\nwait 0\\n' | passboard";

/// Which accumulator keeps the totals.
#[derive(Clone, Copy, Debug, PartialEq, Eq)]
pub(crate) enum Keeping {
    Eager,
    Lazy,
}

/// The kind of value that a send's reading enters as.
#[derive(Clone, Copy, Debug, PartialEq, Eq)]
pub(crate) enum Kind {
    Coil,
    Length,
    Marks,
    Toggles,
    Extremes,
}

/// The accumulator of that name.
pub(crate) fn keeping_named(name: &str) -> Option<Keeping>
    ensures { result ≡ keeping_named name.now }
{
    match name {
        "eager" => Some(Keeping::Eager),
        "lazy" => Some(Keeping::Lazy),
        _ => None,
    }
}

/// The kind of that name.
pub(crate) fn kind_named(name: &str) -> Option<Kind>
    ensures { result ≡ kind_named name.now }
{
    match name {
        "coil" => Some(Kind::Coil),
        "length" => Some(Kind::Length),
        "marks" => Some(Kind::Marks),
        "toggles" => Some(Kind::Toggles),
        "extremes" => Some(Kind::Extremes),
        _ => None,
    }
}

/// How a board is made and spoken to.
#[derive(Clone, Copy, Debug, PartialEq, Eq)]
pub(crate) struct Options {
    pub(crate) first: u8,
    pub(crate) mode: Mode,
    pub(crate) limit: usize,
    pub(crate) keeping: Keeping,
    pub(crate) kind: Kind,
    // Given or not, as it stands on the command line.
    pub(crate) strict: bool,
}

/// An option with a value, and what stands for it where it is not given.
fn valued<'a>(
    heap: Global,
    name: &'a str,
    value: &'a str,
    default: &'a str,
    help: &'a str,
) -> Arg<'a> {
    Arg::new(heap, name)
        .long(name)
        .value_name(value)
        .default_value(default)
        .help(help)
}

/// The program with its options.
pub(crate) fn command<'a>(heap: Global) -> Result<Command<'a>, AllocError> {
    let first = valued(
        heap,
        "first",
        "STATION",
        "0",
        "The station that makes the board",
    );
    let mode = valued(heap, "mode", "MODE", "SW", "Its mode");
    let limit = valued(
        heap,
        "limit",
        "N",
        "64",
        "How many stations, from number 0 on, may send",
    );
    let keeping = valued(
        heap,
        "accumulator",
        "NAME",
        "eager",
        "What keeps the totals",
    );
    let kind = valued(
        heap,
        "value",
        "KIND",
        "coil",
        "The part of a reading that a send takes",
    );
    let strict = Arg::new(heap, "strict")
        .long("strict")
        .action(ArgAction::SetTrue)
        .help("End with status 1 at the first wrong line");
    Command::new(heap, "passboard")
        .about(ABOUT)
        .after_help(DETAILS)
        .arg(first.value_parser(value_parser!(u8)))?
        .arg(mode.value_parser(MODES.as_slice()))?
        .arg(limit.value_parser(value_parser!(usize)))?
        .arg(keeping.value_parser(KEEPINGS.as_slice()))?
        .arg(kind.value_parser(KINDS.as_slice()))?
        .arg(strict)
}

/// The options, given or not. None where one has no value, which a parse does not let through.
pub(crate) fn options_of(matches: &ArgMatches<'_>) -> Option<Options>
    ensures { IfSome result (AskedFor (found_of matches.now)) }
{
    Some(Options {
        first: matches.get_one("first")?,
        mode: mode(matches.get_str("mode")?)?,
        limit: matches.get_one("limit")?,
        keeping: keeping_named(matches.get_str("accumulator")?)?,
        kind: kind_named(matches.get_str("value")?)?,
        strict: matches.get_flag("strict"),
    })
}
