//! Refusals in plain sentences.
ghost use Rattle.std.specs.Prelude.{◌≡◌, Some};
ghost use Rattle.refusal.specs.Sentences.{sentence_text};

use crate::Refusal;
use crate::limits::{LAST_PASS, STATIONS};
use std::fmt;

/// A refusal that is printed as a plain sentence, without a full stop.
#[derive(Clone, Copy, Debug, PartialEq, Eq)]
pub struct Sentence(pub Refusal);

impl Refusal {
    /// What is wrong, and what to do where that helps, in words that have the number at fault.
    pub fn sentence(&self) -> Sentence
        ensures { result.0 ≡ self.now }
    {
        Sentence(*self)
    }
}

impl fmt::Display for Sentence {
    ghost output = { λ s. Some (sentence_text s.0) };

    fn fmt<W: fmt::Write>(&self, f: &mut fmt::Formatter<W>) -> fmt::Result {
        match self.0 {
            Refusal::Limit { limit } => {
                write!(f, "the limit is 1 to {STATIONS} stations, and not {limit}")
            }
            Refusal::TooFewCells { cells } => write!(
                f,
                "{cells} cells are too few: each station below the limit needs one for each kept pass"
            ),
            Refusal::LogSize => {
                f.write_str(
                    "the log is too long, or it is not whole blocks, or its steps have no room",
                )
            }
            Refusal::BlockCheck { block } => write!(
                f,
                "the check of block {block} is wrong: a byte of the block was altered"
            ),
            Refusal::BlockNumber { block } => write!(
                f,
                "block {block} has another number: a block is missing or out of order"
            ),
            Refusal::BlockCount { block } => write!(
                f,
                "block {block} counts too many records, or none, or too few before a further block"
            ),
            Refusal::NotZero { block } => write!(
                f,
                "block {block} has a byte that is not zero outside its records"
            ),
            Refusal::BadRecord { at } => write!(f, "record {at} says no step"),
            Refusal::NoStation { station } => write!(
                f,
                "there is no station {station}: stations have the numbers below {STATIONS}"
            ),
            Refusal::NotMember { caller } => write!(f, "station {caller} is no member"),
            Refusal::AlreadyMember { other } => write!(f, "station {other} is a member already"),
            Refusal::ModeDenied { caller } => write!(
                f,
                "station {caller} is in a mode that does not allow this call"
            ),
            Refusal::OutOfTurn { caller } => write!(
                f,
                "it is not the turn of station {caller}: one in mode SW signs, then waits, then signs"
            ),
            Refusal::PastLastPass { caller } => write!(
                f,
                "station {caller} has come to the last pass, {LAST_PASS}"
            ),
            Refusal::LastPassKept { first } => write!(
                f,
                "there is no pass to move on to: the first kept pass is {first}, the last one"
            ),
            Refusal::NotSigned { caller } => write!(
                f,
                "not every signaler has signed the pass that station {caller} would observe"
            ),
            Refusal::NothingObserved { caller } => write!(
                f,
                "station {caller} has observed no pass yet: it has to wait first"
            ),
            Refusal::NoCell { station } => write!(
                f,
                "station {station} cannot send: only the stations below the limit have cells"
            ),
            Refusal::NotKept { pass } => write!(f, "the total of pass {pass} is not kept"),
        }
    }
}
