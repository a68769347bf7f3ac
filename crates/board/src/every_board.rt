//! What holds of every board there is.
ghost use Rattle.std.specs.Prelude.{ℕ};
ghost use Rattle.calls.specs.declared.actions.Action.{Action};
ghost use Rattle.phaser.specs.State.{SoundState};
ghost use Rattle.phaser.specs.Agreement.{Agrees};

use crate::Board;
use accumulator::Accumulator;

impl<A: Accumulator> Board<A> {
    /// Every view on the board is sound, and each call on it is accepted just where its rule
    /// applies within the limits.
    pub fn keeps_to_the_rules(&self)
        ensures sound { SoundState self.now.state }
        ensures agrees { (j : ℕ) (x : Action A.Value) → Agrees A.Value.Joining self.now.state j x }
    {
        let _seats = &self.members.seats;
    }
}
