//! The member table: a seat for each station, plain enough to be copied whole.
ghost use Rattle.std.specs.Prelude.{◌≡◌, is_some, IfOk, None, slice_index_or, slice_set};
ghost use Rattle.refusal.specs.Rules.{DecidedBy};
ghost use Rattle.phaser.specs.State.{SoundSeat, SoundView};
ghost use Rattle.phaser.specs.Steps.{view_of, has_signed, all_signed};
ghost use Rattle.board.specs.Entry.{entry_rules, first_members};

use crate::station::Station;
use calls::{Mode, Verb, View, may};
use refusal::Refusal;
use refusal::limits::STATIONS;
use std::marker::Model;

/// How many seats there are.
pub const SEATS: usize = STATIONS as usize;

/// The view of each station that is a member. Each is sound: its counts are those of its mode,
/// and no count is past the last pass.
// A plain array, so that the table is copied whole by value, to try a change on the copy.
#[derive(Clone, Copy)]
pub struct Members {
    pub(crate) seats: [Option<View>; SEATS],
}

impl Model for Members {
    ghost use Rattle.std.specs.Prelude.{List, Option};
    ghost use Rattle.calls.specs.declared.views.View.{View};

    ghost Value = { List (Option View) };

    ghost view = { λ m. m.seats };

    ghost use Rattle.phaser.specs.State.{SoundSeats};

    ghost invariant = { λ m. SoundSeats m.seats };

    ghost inverse = { λ seats. record { seats = seats } };
}

/// A caller that was let in, and what it knows.
#[derive(Clone, Copy)]
pub(crate) struct Member {
    pub(crate) station: Station,
    pub(crate) view: View,
}

/// Whether a station that signs has signed the pass.
fn has_signed(seat: Option<View>, pass: u32) -> bool
    ensures { result ≡ has_signed pass seat }
{
    seat.is_none_or(|view| !view.mode.signs() || pass <= view.sp)
}

impl Members {
    /// One member, which has signed and observed nothing.
    pub(crate) fn alone(first: Station, mode: Mode) -> Members
        ensures { result ≡ first_members first.number mode }
    {
        let mut seats = [None; SEATS];
        seats[first.number as usize] = Some(View { mode, sp: 0, wp: 0 });
        Members { seats }
    }

    /// The caller, where it is a member and its mode may make the call.
    pub(crate) fn enter(&self, caller: u8, verb: Verb) -> Result<Member, Refusal>
        ensures decided { let view = view_of (slice_index_or self.now caller None) in
            DecidedBy (entry_rules self.now caller verb) result (λ m. (m.view ≡ view) × (m.station.number ≡ caller)) }
        ensures sound { IfOk result (λ m. SoundView m.view) }
    {
        let station = Station::try_from(caller)?;
        let view = self.seats[station.number as usize].ok_or(Refusal::NotMember { caller })?;
        if !may(verb, view.mode) {
            return Err(Refusal::ModeDenied { caller });
        }
        Ok(Member { station, view })
    }

    /// Whether the station is a member.
    pub(crate) fn has(&self, station: Station) -> bool
        ensures { result ≡ is_some (slice_index_or self.now station.number None) }
    {
        self.seats[station.number as usize].is_some()
    }

    /// Whether each signaler has signed the pass.
    pub(crate) fn all_signed(&self, pass: u32) -> bool
        ensures { result ≡ all_signed pass self.now }
    {
        self.seats.iter().all(|seat| has_signed(*seat, pass))
    }

    /// Puts a view, or none, in the seat of a station.
    pub(crate) fn put(&mut self, station: Station, seat: Option<View>)
        requires { SoundSeat seat }
        ensures { self.new ≡ slice_set self.old station.number seat }
    {
        self.seats[station.number as usize] = seat;
    }
}
