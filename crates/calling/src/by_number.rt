//! One pass of a coil with two gauges, stations 0 and 1, by their numbers.
ghost use Rattle.std.specs.Prelude.{◌≡◌, ◌++◌, Ok};
ghost use Rattle.refusal.specs.Rules.{DecidedBy};
ghost use Rattle.joining.specs.Kinds.{joint_record};
ghost use Rattle.calls.specs.declared.Mode.TheVariants.{SignalWait};
ghost use Rattle.accumulator.specs.Meaning.{new_meaning};
ghost use Rattle.accumulator.specs.Window.{eager_rules};
ghost use Rattle.phaser.specs.State.{new_state};
ghost use Rattle.board.specs.Entry.{board_rules};

use accumulator::{Accumulator, Eager, KEPT, Lazy};
use board::Board;
use calls::Mode;
use joining::{CoilRecord, Joining};
use refusal::Refusal;

/// How many stations have cells.
pub(crate) const GAUGES: usize = 2;

/// Each gauge sends what it measured, signs and waits; then gauge 0 asks for the total. On any
/// accumulator that is just made for two stations no call is refused, and the total of pass 1 is
/// what both sent, joined.
pub fn one_pass<A: Accumulator + Drop>(
    accumulator: A,
    one: A::Value,
    two: A::Value,
) -> Result<(u32, A::Value), Refusal>
    ensures { A.meaning accumulator ≡ new_meaning A.Value.Joining GAUGES →
        result ≡ Ok (1, A.Value.joined one two) }
{
    let mut board = Board::new(0, Mode::SignalWait, accumulator);
    board.register(0, 1, Mode::SignalWait)?;
    board.send(0, one)?;
    board.send(1, two)?;
    board.signal(0)?;
    board.signal(1)?;
    board.wait(0)?;
    board.wait(1)?;
    board.result(0)
}

/// The pass on an eager accumulator, which keeps its totals itself.
pub fn one_pass_eagerly(one: CoilRecord, two: CoilRecord) -> Result<(u32, CoilRecord), Refusal>
    ensures { result ≡ Ok (1, joint_record one two) }
{
    one_pass(Eager::new(GAUGES), one, two)
}

/// The pass on a lazy accumulator, which works in cells of ours.
pub fn one_pass_lazily(one: CoilRecord, two: CoilRecord) -> Result<(u32, CoilRecord), Refusal>
    ensures { result ≡ Ok (1, joint_record one two) }
{
    let mut cells = [CoilRecord::neutral(); KEPT * GAUGES];
    one_pass(Lazy::new(GAUGES, &mut cells), one, two)
}

/// A board for a first station and a limit that come from outside: each trial answers what its
/// making would refuse.
pub fn board_for<V: Joining + Copy>(first: u8, limit: usize) -> Result<Board<Eager<V>>, Refusal>
    ensures { DecidedBy (eager_rules limit ++ board_rules first) result
        (λ board. board.state ≡ new_state V.Joining first SignalWait limit) }
{
    Eager::<V>::trial(limit)?;
    Board::<Eager<V>>::trial(first)?;
    Ok(Board::new(first, Mode::SignalWait, Eager::new(limit)))
}
