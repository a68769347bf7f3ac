//! Who signs and who waits, a member's view, and which of two views happened before the other.
ghost use Rattle.std.specs.Prelude.{◌≡◌, ◌↔◌, IsTrue, Some};
ghost use Rattle.calls.specs.Views.{signs, waits, Before};
ghost use Rattle.calls.specs.Words.{view_text};

use crate::Mode;
use std::fmt;

/// What a member knows: its mode, the passes that it has signed (sp) and those that it has
/// observed (wp).
#[derive(Clone, Copy, Debug, PartialEq, Eq)]
pub struct View {
    pub mode: Mode,
    pub sp: u32,
    pub wp: u32,
}

impl Mode {
    /// Whether it signs passes: SW and SO.
    pub fn signs(self) -> bool
        ensures { result ≡ signs self }
    {
        matches!(self, Mode::SignalWait | Mode::SignalOnly)
    }

    /// Whether it observes passes: SW and WO.
    pub fn waits(self) -> bool
        ensures { result ≡ waits self }
    {
        matches!(self, Mode::SignalWait | Mode::WaitOnly)
    }
}

impl View {
    /// Whether it happened before the other: it signs, has signed less than the other has
    /// observed, and the other waits.
    pub fn happened_before(&self, other: &View) -> bool
        ensures { IsTrue result ↔ Before self.now other.now }
    {
        self.mode.signs() && self.sp < other.wp && other.mode.waits()
    }
}

impl fmt::Display for View {
    ghost output = { λ v. Some (view_text v) };

    fn fmt<W: fmt::Write>(&self, f: &mut fmt::Formatter<W>) -> fmt::Result {
        let View { mode, sp, wp } = *self;
        write!(f, "{mode} {sp} {wp}")
    }
}

/// Whether the first view happened before the second, and the second before the first.
// No ordering: of views that no board has, both may be yes.
pub fn compare(first: &View, second: &View) -> (bool, bool)
    ensures forward { IsTrue result.0 ↔ Before first.now second.now }
    ensures backward { IsTrue result.1 ↔ Before second.now first.now }
{
    (first.happened_before(second), second.happened_before(first))
}
