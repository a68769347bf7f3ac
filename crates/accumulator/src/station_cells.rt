//! The accumulator that has a cell for each station and kept pass, and joins them when asked.
ghost use Rattle.std.specs.Prelude.{◌≡◌, List, ◌+◌, ◌*◌, ◌/◌, ◌≤◌, [], ◌∷◌, length, Ok};
ghost use Rattle.refusal.specs.Rules.{verdict};
ghost use Rattle.accumulator.specs.Window.{lazy_rules};
ghost use Rattle.accumulator.specs.declared.TheConstants.{KEPT};
ghost use Rattle.accumulator.specs.Meaning.{new_meaning};
ghost use Rattle.accumulator.specs.declared.histories.Call.{Call};
ghost use Rattle.accumulator.specs.Calls.{new_account};
ghost use Rattle.accumulator.specs.OwnCells.{OwnCells};
ghost use Rattle.accumulator.specs.Lazy.{slot_total, with_neutral_front, with_value_at, without_slot, station_changes};

use crate::slots::Slots;
use crate::window::{Slot, Window, try_limit};
use crate::windowed::Windowed;
use crate::{Accumulator, KEPT};
use joining::{Joining, join_every};
use refusal::Refusal;
use std::marker::Model;

/// Station s has cell `KEPT` * s + r for slot r. The cells are lent, and further ones are left as
/// they are.
#[derive(Drop)]
pub struct Cells<'a, V> {
    cells: &'a mut [V],
}

impl<'a, V> Model for Cells<'a, V> {
    ghost use Rattle.std.specs.Prelude.{[], ◌∷◌};
    ghost use Rattle.accumulator.specs.LentCells.{Lent};

    ghost Value = { Lent V };

    ghost view = { λ c. record { names = c.cells.ghost_name ∷ []; values = c.cells.now } };
}

/// The total of a pass is that of the cells of its slot.
pub type Lazy<'a, V> = Windowed<Cells<'a, V>>;

impl<'a, V: Joining + Copy> Lazy<'a, V> {
    /// Whether `new` can be called: it refuses a limit that is not 1 to 64, then too few cells.
    pub fn trial(limit: usize, cells: &[V]) -> Result<(), Refusal>
        ensures { result ≡ verdict (lazy_rules limit (length cells.now)) }
    {
        try_limit(limit)?;
        if cells.len() < KEPT * limit {
            return Err(Refusal::TooFewCells { cells: cells.len() });
        }
        Ok(())
    }

    /// An accumulator in the lent cells: its first kept pass is 0, and its totals are neutral.
    pub fn new(limit: usize, cells: &'a mut [V]) -> Lazy<'a, V>
        requires { verdict (lazy_rules limit (length cells.old)) ≡ Ok tt }
        ensures meaning { ⟦<Lazy<'a, V> as Accumulator>⟧.meaning result ≡ new_meaning V.Joining limit }
        ensures cells { ⟦<Lazy<'a, V> as Accumulator>⟧.cells result
            ≡ record { names = cells.entry.ghost_name ∷ []; values = with_neutral_front V.Joining (KEPT * limit) cells.old } }
        ensures own { (calls : List (Call V)) →
            let start = new_account V.Joining limit (⟦<Lazy<'a, V> as Accumulator>⟧.cells result) in
            OwnCells V.Joining (station_changes V.Joining) start calls }
    {
        cells[..KEPT * limit].fill_with(|| V::neutral());
        Windowed {
            window: Window::new(limit),
            slots: Cells { cells },
        }
    }
}

impl<'a, V: Joining + Copy> Slots for Cells<'a, V> {
    type Value = V;

    ghost places = { λ s. length s.values / KEPT };

    ghost total = { λ s limit. slot_total V.Joining limit s.values };

    ghost cells = { λ s. s };

    ghost join_change = { λ station slot. with_value_at V.Joining (KEPT * station + slot) };

    ghost wipe_change = { λ limit slot. without_slot V.Joining slot limit };

    fn join(&mut self, station: u8, slot: Slot, value: V) {
        let at = KEPT * station as usize + slot.index;
        let cells = &mut *self.cells;
        cells[at] = cells[at].join(value);
    }

    fn total(&self, limit: u8, slot: Slot) -> V {
        let end = KEPT * limit as usize;
        join_every(&self.cells[..end], slot.index, KEPT)
    }

    fn wipe(&mut self, limit: u8, slot: Slot) {
        // By index: of what `step_by` lends by `iter_mut`, a proof does not know the cells
        // afterwards.
        for station in 0..limit {
            self.cells[KEPT * station as usize + slot.index] = V::neutral();
        }
    }
}
