//! One table decides who may do what, and one who may bring in whom.
ghost use Rattle.std.specs.Prelude.{◌≡◌};
ghost use Rattle.calls.specs.Tables.{allowed, admits, calls_by_modes, modes_by_newcomers};

use crate::{Mode, Verb};

/// Which mode may make which call: a row for each call, a column for each mode.
const MAY: [[bool; 3]; 7] = [
    [true, true, true],
    [true, true, false],
    [true, false, true],
    [true, true, true],
    [true, false, false],
    [true, false, false],
    [true, true, true],
];

/// Which newcomer a member may bring in: a row for each caller's mode, a column for each
/// newcomer's.
const BRINGS: [[bool; 3]; 3] = [
    [true, true, true],
    [false, true, false],
    [false, false, true],
];

/// Whether a member of this mode may make this call.
pub fn may(verb: Verb, mode: Mode) -> bool
    ensures { result ≡ allowed verb mode }
{
    MAY[verb as usize][mode as usize]
}

/// Whether a member of this mode may bring in a newcomer of that one.
pub fn brings(caller: Mode, newcomer: Mode) -> bool
    ensures { result ≡ admits caller newcomer }
{
    BRINGS[caller as usize][newcomer as usize]
}

/// Both tables are their rule, entry by entry.
pub fn tables_stand()
    ensures calls { MAY ≡ calls_by_modes }
    ensures newcomers { BRINGS ≡ modes_by_newcomers }
{}
