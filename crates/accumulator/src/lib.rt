//! Accumulators: what keeps the totals of the newest passes, in ways that are interchangeable.

#![tactic(auto)]

ghost use Rattle.std.specs.Prelude.{◌≡◌};
ghost use Rattle.accumulator.specs.Meaning.{Meaning, Sound, add_outcome, total_answer, move_on_outcome};
ghost use Rattle.accumulator.specs.LentCells.{Lent, CellChanges, with_values, unless_refused};

mod histories;
mod running_totals;
mod slots;
mod station_cells;
mod window;
mod windowed;

pub use histories::{Answer, Call, play, play_both};
use joining::Joining;
use refusal::Refusal;
pub use running_totals::{Eager, Totals};
pub use station_cells::{Cells, Lazy};

/// How many passes are kept.
pub const KEPT: usize = 3;

/// A board moves its accumulator on when a wait in mode SW reaches the first kept pass plus this.
pub const LEAD: u32 = 2;

/// Keeps the totals of `KEPT` passes, from the first kept one on. Its calls are known by what
/// they do to its meaning.
pub trait Accumulator {
    type Value: Joining + Copy;

    /// The limit, the first kept pass and the totals of the kept passes.
    ghost meaning: { Self → Meaning Self.Value };

    /// The limit is 1 to 64, the first kept pass is at most the last one, and each kept pass has
    /// a total.
    ghost sound: { (a : Self) → Sound (meaning a) };

    /// The cells that are lent, each with what it holds.
    ghost cells: { Self → Lent Self.Value };

    /// What an accepted add and an accepted move on do to the cells. No other call writes one.
    ghost changes: { CellChanges Self.Value };

    /// The neutral value of the kind.
    fn neutral() -> Self::Value
        ensures { result ≡ Self.Value.neutral };

    /// The first kept pass.
    fn first(&self) -> u32
        ensures { result ≡ (meaning self.now).first };

    /// Joins a station's value to the total of a pass.
    fn add(&mut self, station: u8, pass: u32, value: Self::Value) -> Result<(), Refusal>
        ensures result { (result, meaning self.new)
            ≡ add_outcome Self.Value.Joining (meaning self.old) station pass value }
        ensures cells { cells self.new
            ≡ with_values (unless_refused result (changes.by_add (meaning self.old) station pass value)) (cells self.old) };

    /// The total of a pass.
    fn total(&self, pass: u32) -> Result<Self::Value, Refusal>
        ensures { result ≡ total_answer Self.Value.Joining (meaning self.now) pass };

    /// Forgets the first kept pass, and keeps a new one.
    fn move_on(&mut self) -> Result<(), Refusal>
        ensures result { (result, meaning self.new) ≡ move_on_outcome Self.Value.Joining (meaning self.old) }
        ensures cells { cells self.new
            ≡ with_values (unless_refused result (changes.by_move_on (meaning self.old))) (cells self.old) };
}
