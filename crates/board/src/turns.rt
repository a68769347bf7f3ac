//! Whose turn it is: what a member may sign, send and wait for.
ghost use Rattle.std.specs.Prelude.{◌≡◌};
ghost use Rattle.phaser.specs.Limits.{is_sw};
ghost use Rattle.phaser.specs.State.{SoundView};
ghost use Rattle.board.specs.Entry.{next_pass, pass_to_sign, pass_to_observe};

use crate::members::Member;
use calls::Mode;
use refusal::Refusal;
use refusal::limits::LAST_PASS;

/// Whether a member signs and waits in turn.
pub(crate) fn in_turn(mode: Mode) -> bool
    ensures { result ≡ is_sw mode }
{
    mode.signs() && mode.waits()
}

impl Member {
    /// The pass after those counted.
    fn pass_after(self, count: u32) -> Result<u32, Refusal>
        ensures { result ≡ next_pass count self.station.number }
    {
        if count >= LAST_PASS {
            return Err(Refusal::PastLastPass {
                caller: self.station.number,
            });
        }
        Ok(count + 1)
    }

    /// The pass that it would sign, or send for, next.
    pub(crate) fn next_to_sign(self) -> Result<u32, Refusal>
        requires { SoundView self.view }
        ensures { result ≡ pass_to_sign self.view self.station.number }
    {
        let view = self.view;
        if in_turn(view.mode) && view.sp == view.wp + 1 {
            return Err(Refusal::OutOfTurn {
                caller: self.station.number,
            });
        }
        self.pass_after(view.sp)
    }

    /// The pass that it would observe next.
    pub(crate) fn next_to_observe(self) -> Result<u32, Refusal>
        ensures { result ≡ pass_to_observe self.view self.station.number }
    {
        let view = self.view;
        if in_turn(view.mode) && view.sp == view.wp {
            return Err(Refusal::OutOfTurn {
                caller: self.station.number,
            });
        }
        self.pass_after(view.wp)
    }
}
