//! What keeps a total for each slot.
ghost use Rattle.std.specs.Prelude.{◌≡◌, ℕ, ◌<◌, ◌≤◌, List};
ghost use Rattle.accumulator.specs.LentCells.{Lent, with_values};
ghost use Rattle.accumulator.specs.Changed.{OneChanged};

use crate::window::Slot;
use joining::Joining;

/// Keeps a total for each of the `KEPT` slots, of the values of the stations below a limit.
// The window has the limit, so that it stands once, and the calls are told it.
pub trait Slots {
    type Value: Joining + Copy;

    /// How many stations have a place.
    ghost places: { Self → ℕ };

    /// The total of a slot, by the limit.
    ghost total: { Self → ℕ → ℕ → Self.Value };

    /// The cells that are lent, each with what it holds.
    ghost cells: { Self → Lent Self.Value };

    /// What they hold after a station's value is joined to a slot.
    ghost join_change: { ℕ → ℕ → Self.Value → List Self.Value → List Self.Value };

    /// What they hold after a slot is made neutral, by the limit.
    ghost wipe_change: { ℕ → ℕ → List Self.Value → List Self.Value };

    /// Joins a station's value to the total of a slot.
    fn join(&mut self, station: u8, slot: Slot, value: Self::Value)
        requires { station < places self.old }
        ensures total { (limit : ℕ) → station < limit → limit ≤ places self.old →
            let joined = Self.Value.joined (total self.old limit slot.index) value in
            OneChanged (total self.old limit) (total self.new limit) slot.index joined }
        ensures places { places self.new ≡ places self.old }
        ensures cells { cells self.new ≡ with_values (join_change station slot.index value) (cells self.old) };

    /// The total of a slot.
    fn total(&self, limit: u8, slot: Slot) -> Self::Value
        requires { limit ≤ places self.now }
        ensures { result ≡ total self.now limit slot.index };

    /// Makes the total of a slot neutral.
    fn wipe(&mut self, limit: u8, slot: Slot)
        requires { limit ≤ places self.old }
        ensures total { OneChanged (total self.old limit) (total self.new limit) slot.index Self.Value.neutral }
        ensures places { places self.new ≡ places self.old }
        ensures cells { cells self.new ≡ with_values (wipe_change limit slot.index) (cells self.old) };
}
