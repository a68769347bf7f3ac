//! Runs the report over the example logs, one after another, and then plays one at the limits of
//! a board.

#![tactic(auto)]

use accumulator::Eager;
use board::{Board, play};
use calls::Mode;
use commandline::is_to_work;
use joining::CoilRecord;
use playlog::{calls_of, lines, outcomes_of, report};
use shiftlog::{Log, read_log};
use std::fs::File;

/// How often `signals.log`, with its 999 signals, is played: station 1 has then signed every pass
/// there is.
const ROUNDS: u32 = 1001;

const NAMES: [&str; 23] = [
    "nine",
    "empty",
    "view",
    "edges",
    "full",
    "one-over",
    "no",
    "passes",
    "refused-3-short",
    "refused-3-long",
    "refused-3-longer",
    "refused-4",
    "refused-4-before-5",
    "refused-5",
    "refused-5-before-6",
    "refused-6-none",
    "refused-6-not-full",
    "refused-7-header",
    "refused-7-unused",
    "refused-8-verb",
    "refused-8-mode",
    "refused-8-byte",
    "refused-8-before-4",
];

/// What is read of an example log.
fn read_example(rt: &HostRuntime, name: &str) -> anyhow::Result<Vec<u8>> {
    let path = format!(in rt.alloc(); "{name}.log")?;
    let file = File::open(rt, path)?;
    Ok(read_log(rt.alloc(), file)?)
}

/// How many bytes were read, and the report of them.
fn show(rt: &HostRuntime, name: &str) -> anyhow::Result<()> {
    let bytes = read_example(rt, name)?;
    let count = bytes.len();
    let text = report(rt.alloc(), bytes.as_slice())?;
    let text = text.as_str();
    print!(rt; "== {name}: {count} bytes\n{text}")?;
    Ok(())
}

/// The same of the longest log, but of its thousands of lines the last alone.
fn show_longest(rt: &HostRuntime) -> anyhow::Result<()> {
    let bytes = read_example(rt, "longest")?;
    let count = bytes.len();
    let text = report(rt.alloc(), bytes.as_slice())?;
    let last = text.as_str().lines().last().unwrap_or("");
    println!(rt; "== longest: {count} bytes, the last line\n{last}")?;
    Ok(())
}

/// Plays a log on the board and hands out the lines of its records.
fn play_on(
    rt: &HostRuntime,
    board: &mut Board<Eager<CoilRecord>>,
    log: &Log<'_>,
) -> anyhow::Result<String> {
    let steps = log.steps(rt.alloc())?;
    let calls = calls_of(rt.alloc(), steps.as_slice())?;
    let answers = play(board, calls.as_slice(), rt.alloc())?;
    let outcomes = outcomes_of(rt.alloc(), steps.as_slice(), answers.as_slice())?;
    Ok(lines(rt.alloc(), outcomes.as_slice())?)
}

/// A board with cells for two stations, on which one has signed to the end: each refusal of a
/// call can be reached there.
fn show_limits(rt: &HostRuntime) -> anyhow::Result<()> {
    let signals = read_example(rt, "signals")?;
    let limits = read_example(rt, "limits")?;
    let signals = Log::check(signals.as_slice())?;
    let limits = Log::check(limits.as_slice())?;
    let mut board = Board::new(0, Mode::SignalWait, Eager::new(2));
    for _ in 0..ROUNDS {
        play_on(rt, &mut board, &signals)?;
    }
    let text = play_on(rt, &mut board, &limits)?;
    let text = text.as_str();
    print!(rt; "== limits\n{text}")?;
    Ok(())
}

const ABOUT: &str = "\
Prints the reports of the example logs, which lie in the folder that it runs in.";

const DETAILS: &str = "\
Status: 0, or 1 where a log could not be read or the text not be written.

Example:
  cd crates/examples/data && ../out/examples";

fn run(rt: &HostRuntime) -> anyhow::Result<()> {
    for name in NAMES {
        show(rt, name)?;
    }
    show_longest(rt)?;
    show_limits(rt)
}

fn main(rt: HostRuntime) -> anyhow::Result<()> {
    if is_to_work(&rt, "examples", ABOUT, DETAILS)? {
        run(&rt)?;
    }
    Ok(())
}
