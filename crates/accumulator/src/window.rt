//! The limit and the kept passes: all that an accumulator refuses by.
ghost use Rattle.std.specs.Prelude.{◌≡◌, ◌+◌, ◌<◌, ◌≤◌, Ok};
ghost use Rattle.refusal.specs.declared.limits.TheConstants.{STATIONS, LAST_PASS};
ghost use Rattle.refusal.specs.Rules.{verdict, DecidedBy};
ghost use Rattle.accumulator.specs.Window.{slot_of, keeps, eager_rules, total_rules, add_rules, move_on_rules};
ghost use Rattle.accumulator.specs.declared.TheConstants.{KEPT};

use crate::KEPT;
use refusal::Refusal;
use refusal::limits::{LAST_PASS, STATIONS};

/// The stations below the limit may add to the passes from the first kept one on.
#[derive(Clone, Copy)]
pub struct Window {
    pub(crate) limit: u8,
    pub(crate) first: u32,
    ghost some: { 1 ≤ limit },
    ghost most: { limit ≤ STATIONS },
    ghost early: { first ≤ LAST_PASS },
}

/// Whether so many stations may be given cells.
pub(crate) fn try_limit(limit: usize) -> Result<(), Refusal>
    ensures { result ≡ verdict (eager_rules limit) }
{
    if limit < 1 || limit > STATIONS as usize {
        return Err(Refusal::Limit { limit });
    }
    Ok(())
}

/// The place of a pass among the kept ones.
#[derive(Clone, Copy)]
pub struct Slot {
    pub(crate) index: usize,
    ghost within: { index < KEPT },
}

/// The slot of a pass.
pub(crate) fn slot_of(pass: u32) -> Slot
    ensures { result.index ≡ slot_of pass }
{
    Slot {
        index: pass as usize % KEPT,
    }
}

impl Window {
    /// The window of an accumulator that is just made.
    pub(crate) fn new(limit: usize) -> Window
        requires { verdict (eager_rules limit) ≡ Ok tt }
        ensures limit { result.limit ≡ limit }
        ensures first { result.first ≡ 0 }
    {
        Window {
            limit: limit as u8,
            first: 0,
        }
    }

    /// Whether a pass is kept.
    fn keeps(&self, pass: u32) -> bool
        ensures { result ≡ keeps self.now.first pass }
    {
        self.first <= pass && pass - self.first < KEPT as u32
    }

    /// Whether a pass has a total.
    pub(crate) fn try_total(&self, pass: u32) -> Result<(), Refusal>
        ensures { result ≡ verdict (total_rules self.now.first pass) }
    {
        if !self.keeps(pass) {
            return Err(Refusal::NotKept { pass });
        }
        Ok(())
    }

    /// Whether a station may add to a pass.
    pub(crate) fn try_add(&self, station: u8, pass: u32) -> Result<(), Refusal>
        ensures { result ≡ verdict (add_rules self.now.limit self.now.first station pass) }
    {
        if station >= self.limit {
            return Err(Refusal::NoCell { station });
        }
        self.try_total(pass)
    }

    /// The window after a move on.
    pub(crate) fn moved_on(self) -> Result<Window, Refusal>
        ensures { DecidedBy (move_on_rules self.first) result (λ w. (w.limit ≡ self.limit) × (w.first ≡ self.first + 1)) }
    {
        if self.first >= LAST_PASS {
            return Err(Refusal::LastPassKept { first: self.first });
        }
        // Both fields, since the checker refuses the rest of a struct that has a ghost field.
        Ok(Window {
            limit: self.limit,
            first: self.first + 1,
        })
    }
}
