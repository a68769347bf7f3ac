//! The numbers that stations have.
ghost use Rattle.std.specs.Prelude.{◌≡◌, ◌<◌};
ghost use Rattle.refusal.specs.declared.limits.TheConstants.{STATIONS};
ghost use Rattle.refusal.specs.Rules.{DecidedBy};
ghost use Rattle.board.specs.Entry.{board_rules};

use refusal::Refusal;
use refusal::limits::STATIONS;

/// A number that a station has.
#[derive(Clone, Copy)]
pub(crate) struct Station {
    pub(crate) number: u8,
    ghost known: { number < STATIONS },
}

impl TryFrom<u8> for Station {
    type Error = Refusal;

    ghost try_from_gives = { λ n answer. DecidedBy (board_rules n) answer (λ s. s.number ≡ n) };

    fn try_from(number: u8) -> Result<Station, Refusal> {
        if number >= STATIONS {
            return Err(Refusal::NoStation { station: number });
        }
        Ok(Station { number })
    }
}
