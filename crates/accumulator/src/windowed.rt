//! The accumulator that keeps its totals in slots.
ghost use Rattle.std.specs.Prelude.{◌≤◌};
ghost use Rattle.accumulator.specs.LentCells.{slot_changes};
ghost use Rattle.accumulator.specs.Ring.{window_meaning, window_meaning_sound};

use crate::Accumulator;
use crate::slots::Slots;
use crate::window::{Window, slot_of};
use joining::Joining;
use refusal::Refusal;

/// The total of a pass is in its slot, and the slots have a place for each station below the limit.
#[derive(Drop)]
pub struct Windowed<S: Slots> {
    pub(crate) window: Window,
    pub(crate) slots: S,
    ghost fits: { window.limit ≤ S.places slots },
}

impl<S: Slots> Accumulator for Windowed<S> {
    type Value = S::Value;

    ghost meaning = { λ a. window_meaning a.window (S.total a.slots a.window.limit) };

    ghost sound = { λ a. window_meaning_sound a.window (S.total a.slots a.window.limit) };

    ghost cells = { λ a. S.cells a.slots };

    ghost changes = { slot_changes S.join_change S.wipe_change };

    fn neutral() -> S::Value {
        S::Value::neutral()
    }

    fn first(&self) -> u32 {
        self.window.first
    }

    #[tactic(auto, using(crate::proofs::OneSlot::below_limit))]
    fn add(&mut self, station: u8, pass: u32, value: S::Value) -> Result<(), Refusal> {
        self.window.try_add(station, pass)?;
        self.slots.join(station, slot_of(pass), value);
        Ok(())
    }

    fn total(&self, pass: u32) -> Result<S::Value, Refusal> {
        self.window.try_total(pass)?;
        Ok(self.slots.total(self.window.limit, slot_of(pass)))
    }

    #[tactic(auto, using(crate::proofs::OneSlot::slots_moved))]
    fn move_on(&mut self) -> Result<(), Refusal> {
        let next = self.window.moved_on()?;
        self.slots.wipe(next.limit, slot_of(self.window.first));
        self.window = next;
        Ok(())
    }
}
