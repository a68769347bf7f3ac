//! The seven calls and their answers as values.
ghost use Rattle.std.specs.Prelude.{◌≡◌};
ghost use Rattle.calls.specs.Calls.{verb_in, action_with, call_with, ForSent, ActionThrough};
ghost use Rattle.calls.specs.Words.{call_output, answer_output};

use crate::{Mode, Verb, View};
use std::fmt;

/// What a station asks of the board. A send carries a value.
#[derive(Clone, Copy, Debug, PartialEq, Eq)]
pub enum Action<V> {
    Register { other: u8, mode: Mode },
    Signal,
    Wait,
    Drop,
    Send { value: V },
    Result,
    View,
}

/// An action, and the station that asks for it.
#[derive(Clone, Copy, Debug, PartialEq, Eq)]
pub struct Call<V> {
    pub caller: u8,
    pub action: Action<V>,
}

impl<V> Action<V> {
    /// Which of the seven it is.
    pub fn verb(&self) -> Verb
        ensures { result ≡ verb_in self.now }
    {
        match self {
            Action::Register { .. } => Verb::Register,
            Action::Signal => Verb::Signal,
            Action::Wait => Verb::Wait,
            Action::Drop => Verb::Drop,
            Action::Send { .. } => Verb::Send,
            Action::Result => Verb::Result,
            Action::View => Verb::View,
        }
    }

    /// The same action with what the closure makes of the value that it sends.
    pub fn map<W, F: FnOnce(V) -> W>(self, f: F) -> Action<W>
        requires { ForSent self (F.pre f) }
        ensures through { ActionThrough (F.post f) self result }

        // Where the closure computes a function h.
        ensures acts { (h : V → W) → ((v : V) (w : W) → F.post f v w → w ≡ h v) → result ≡ action_with h self }
    {
        match self {
            Action::Register { other, mode } => Action::Register { other, mode },
            Action::Signal => Action::Signal,
            Action::Wait => Action::Wait,
            Action::Drop => Action::Drop,
            Action::Send { value } => Action::Send { value: f(value) },
            Action::Result => Action::Result,
            Action::View => Action::View,
        }
    }
}

impl<V> Call<V> {
    /// The same call with what the closure makes of the value that it sends.
    pub fn map<W, F: FnOnce(V) -> W>(self, f: F) -> Call<W>
        requires { ForSent self.action (F.pre f) }
        ensures caller { result.caller ≡ self.caller }
        ensures through { ActionThrough (F.post f) self.action result.action }
        ensures acts { (h : V → W) → ((v : V) (w : W) → F.post f v w → w ≡ h v) → result ≡ call_with h self }
    {
        Call {
            caller: self.caller,
            action: self.action.map(f),
        }
    }
}

impl<V: fmt::Display> fmt::Display for Call<V> {
    ghost output = { call_output V.output };

    fn fmt<W: fmt::Write>(&self, f: &mut fmt::Formatter<W>) -> fmt::Result {
        let verb = self.action.verb();
        let caller = self.caller;
        match &self.action {
            Action::Register { other, mode } => write!(f, "{verb} {caller} {other} {mode}"),
            Action::Send { value } => write!(f, "{verb} {caller} {value}"),
            _ => write!(f, "{verb} {caller}"),
        }
    }
}

/// What an accepted call answers.
#[derive(Clone, Copy, Debug, PartialEq, Eq)]
pub enum Answer<V> {
    /// The newcomer's counts.
    Registered { sp: u32, wp: u32 },
    /// The passes now signed.
    Signaled { sp: u32 },
    /// The passes now observed.
    Observed { wp: u32 },
    Dropped,
    /// The pass that the value counts for.
    Sent { pass: u32 },
    /// The last pass observed, and its total.
    Total { pass: u32, total: V },
    Viewed { view: View },
}

impl<V: fmt::Display> fmt::Display for Answer<V> {
    ghost output = { answer_output V.output };

    fn fmt<W: fmt::Write>(&self, f: &mut fmt::Formatter<W>) -> fmt::Result {
        match self {
            Answer::Registered { sp, wp } => write!(f, "ok {sp} {wp}"),
            Answer::Signaled { sp } => write!(f, "ok {sp}"),
            Answer::Observed { wp } => write!(f, "ok {wp}"),
            Answer::Dropped => f.write_str("ok"),
            Answer::Sent { pass } => write!(f, "ok {pass}"),
            Answer::Total { pass, total } => write!(f, "ok {pass} {total}"),
            Answer::Viewed { view } => write!(f, "ok {view}"),
        }
    }
}
