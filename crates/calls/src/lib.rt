//! The vocabulary of a phaser's calls: modes, views, the seven calls and their answers, and who may
//! make which call.

#![tactic(auto)]

ghost use Rattle.calls.specs.Words.{mode_text, verb_text};
ghost use Rattle.std.specs.Prelude.{Some};

use std::fmt;

mod actions;
pub mod codes;
mod table;
mod views;

pub use actions::{Action, Answer, Call};
pub use table::{brings, may, tables_stand};
pub use views::{View, compare};

/// What a member may do. A signaler signs passes, and a waiter observes them.
#[derive(Clone, Copy, Debug, PartialEq, Eq)]
pub enum Mode {
    /// Signs and waits, SW.
    SignalWait,
    /// Only signs, SO.
    SignalOnly,
    /// Only waits, WO.
    WaitOnly,
}

/// Which of the seven calls is made.
#[derive(Clone, Copy, Debug, PartialEq, Eq)]
pub enum Verb {
    Register,
    Signal,
    Wait,
    Drop,
    Send,
    Result,
    View,
}

impl fmt::Display for Mode {
    ghost output = { λ m. Some (mode_text m) };

    fn fmt<W: fmt::Write>(&self, f: &mut fmt::Formatter<W>) -> fmt::Result {
        f.write_str(match self {
            Mode::SignalWait => "SW",
            Mode::SignalOnly => "SO",
            Mode::WaitOnly => "WO",
        })
    }
}

impl fmt::Display for Verb {
    ghost output = { λ v. Some (verb_text v) };

    fn fmt<W: fmt::Write>(&self, f: &mut fmt::Formatter<W>) -> fmt::Result {
        f.write_str(match self {
            Verb::Register => "register",
            Verb::Signal => "signal",
            Verb::Wait => "wait",
            Verb::Drop => "drop",
            Verb::Send => "send",
            Verb::Result => "result",
            Verb::View => "view",
        })
    }
}
