//! Who holds a waiter back.
ghost use Rattle.std.specs.Prelude.{◌≡◌, ◌≤◌, length, IfOk, None, slice_index_or};
ghost use Rattle.std.specs.Int.Count.{ones};
ghost use Rattle.refusal.specs.declared.limits.TheConstants.{STATIONS};
ghost use Rattle.phaser.specs.State.{seat};
ghost use Rattle.phaser.specs.Rules.{view_after_wait};
ghost use Rattle.phaser.specs.Steps.{view_of};
ghost use Rattle.board.specs.Holders.{holds_back, holder_set, holders_of, WaitsFor};

use crate::Board;
use crate::members::SEATS;
use accumulator::Accumulator;
use calls::{Verb, View};
use refusal::Refusal;

/// Whether a station has yet to sign what a waiter with this `wp` observes next.
fn holds(seat: Option<View>, wp: u32) -> bool
    ensures { result ≡ holds_back wp seat }
{
    seat.is_some_and(|view| view.mode.signs() && view.sp <= wp)
}

/// The set of the seats that hold back, the first in the lowest bit.
fn held_by(seats: &[Option<View>; SEATS], wp: u32) -> u64
    ensures { result ≡ holder_set wp seats.now }
{
    let mut set = 0u64;
    for (k, seat) in seats.iter().enumerate() {
        if holds(*seat, wp) {
            set |= 1 << k;
        }
    }
    set
}

impl<A: Accumulator> Board<A> {
    /// The stations that a waiter waits for, as a set with its count: bit k is station k's. It is
    /// empty just where the wait's pass is signed by every signaler. Refused with 9, 10 and 12.
    pub fn holders(&self, waiter: u8) -> Result<(u64, u32), Refusal>
        ensures answer { result ≡ holders_of self.now.state.members waiter }
        ensures who { let after = view_after_wait (view_of (seat self.now.state waiter)) in
            IfOk result (λ h. WaitsFor self.now.state.members after h.0) }
    {
        let member = self.members.enter(waiter, Verb::Wait)?;
        let set = held_by(&self.members.seats, member.view.wp);
        Ok((set, set.count_ones()))
    }
}
