//! Makes a board, and answers the calls that it reads from standard input, one to a line.

#![tactic(auto)]

ghost use Rattle.std.specs.Prelude.{◌≡◌, Ok, OnOk};
ghost use Rattle.refusal.specs.Rules.{verdict};
ghost use Rattle.accumulator.specs.Window.{eager_rules};
ghost use Rattle.board.specs.Entry.{board_rules};

mod arguments;

use crate::arguments::{Keeping, Kind, Options, command, options_of};
use accumulator::{Accumulator, Eager, KEPT, Lazy};
use anyhow::Context;
use board::Board;
use commandline::{asked, in_words, words};
use desk::{Measured, answer_lines};
use joining::{CoilRecord, Extremes, Joining, Length, Marks, Toggles};
use refusal::Refusal;
use std::io::BufReader;

/// Whether a board and its accumulator can be made, of whatever kind.
fn tried(first: u8, limit: usize) -> Result<(), Refusal>
    ensures first { OnOk result (verdict (board_rules first) ≡ Ok tt) }
    ensures limit { OnOk result (verdict (eager_rules limit) ≡ Ok tt) }
{
    Board::<Eager<Length>>::trial(first)?;
    Eager::<Length>::trial(limit)?;
    Ok(())
}

/// Answers all lines on a board with the accumulator.
fn talk<V: Measured, A: Accumulator<Value = V> + Drop>(
    rt: &HostRuntime,
    options: &Options,
    accumulator: A,
) -> anyhow::Result<()>
    requires { verdict (board_rules options.now.first) ≡ Ok tt }
{
    let mut board = Board::new(options.first, options.mode, accumulator);
    let mut lines = BufReader::new(rt.alloc(), rt.stdin())?;
    let (mut answers, mut complaints) = (rt.stdout(), rt.stderr());
    answer_lines(
        rt.alloc(),
        &mut board,
        options.strict,
        &mut lines,
        &mut answers,
        &mut complaints,
    )?;
    Ok(())
}

/// The same with cells of each station and kept pass.
fn talk_lazily<V: Measured + Joining>(rt: &HostRuntime, options: &Options) -> anyhow::Result<()>
    requires { verdict (board_rules options.now.first) ≡ Ok tt }
{
    let count = KEPT.saturating_mul(options.limit);
    let mut cells = vec![in rt.alloc(); V::neutral(); count]?;
    if let Err(refusal) = Lazy::trial(options.limit, cells.as_slice()) {
        return Err(in_words(refusal));
    }
    let accumulator = Lazy::new(options.limit, cells.as_mut_slice());
    talk(rt, options, accumulator)
}

/// Answers all lines on the board that the options ask for.
fn serve(rt: &HostRuntime, options: &Options) -> anyhow::Result<()>
    requires first { verdict (board_rules options.now.first) ≡ Ok tt }
    requires limit { verdict (eager_rules options.now.limit) ≡ Ok tt }
{
    let limit = options.limit;
    match options.keeping {
        Keeping::Eager => match options.kind {
            Kind::Coil => talk(rt, options, Eager::<CoilRecord>::new(limit)),
            Kind::Length => talk(rt, options, Eager::<Length>::new(limit)),
            Kind::Marks => talk(rt, options, Eager::<Marks>::new(limit)),
            Kind::Toggles => talk(rt, options, Eager::<Toggles>::new(limit)),
            Kind::Extremes => talk(rt, options, Eager::<Extremes>::new(limit)),
        },
        Keeping::Lazy => match options.kind {
            Kind::Coil => talk_lazily::<CoilRecord>(rt, options),
            Kind::Length => talk_lazily::<Length>(rt, options),
            Kind::Marks => talk_lazily::<Marks>(rt, options),
            Kind::Toggles => talk_lazily::<Toggles>(rt, options),
            Kind::Extremes => talk_lazily::<Extremes>(rt, options),
        },
    }
}

fn main(rt: HostRuntime) -> anyhow::Result<()> {
    let words = words(&rt)?;
    let Some(matches) = asked(&rt, command(rt.alloc())?, words.as_slice())? else {
        return Ok(());
    };
    let options = options_of(&matches).context("an option has no value")?;
    match tried(options.first, options.limit) {
        Ok(()) => serve(&rt, &options),
        Err(refusal) => Err(in_words(refusal)),
    }
}
