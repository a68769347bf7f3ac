//! A board called in several ways one after another: the law of all of it follows from the
//! contracts of the board.

ghost use Rattle.std.specs.Prelude.{◌≡◌, ℕ, [], ◌∷◌, ◌++◌, IfOk, Ok, zip};
ghost use Rattle.refusal.specs.Rules.{verdict};
ghost use Rattle.accumulator.specs.Meaning.{new_meaning};
ghost use Rattle.phaser.specs.State.{new_state};
ghost use Rattle.phaser.specs.Law.{LawOfTheRecord, OrderFree, RecordGoesOn};
ghost use Rattle.calls.specs.declared.actions.Action.TheVariants.{Signal};
ghost use Rattle.calls.specs.declared.actions.Answer.TheVariants.{Signaled};
ghost use Rattle.board.specs.Board.{as_answer};
ghost use Rattle.board.specs.Entry.{board_rules};

use accumulator::Accumulator;
use board::{Board, play, play_both};
use calls::{Answer, Call, Mode};
use phaser::records_go_on;
use refusal::Refusal;
use std::alloc::{AllocError, Global};

/// What a call was answered.
pub type Reply<V> = Result<Answer<V>, Refusal>;

/// Two lists and a call between them, on a board that may have been called before.
pub fn work_on<A: Accumulator>(
    board: &mut Board<A>,
    morning: &[Call<A::Value>],
    noon: Call<A::Value>,
    evening: &[Call<A::Value>],
    heap: Global,
) -> Result<(Vec<Reply<A::Value>>, Reply<A::Value>, Vec<Reply<A::Value>>), AllocError>
    ensures { IfOk result (λ v.
        let answered = zip morning.now v.0.items ++ (noon, v.1) ∷ zip evening.now v.2.items in
        RecordGoesOn A.Value.Joining board.old.state answered board.new.state) }
{
    let first = play(board, morning, heap)?;
    let answer = board.call(noon);
    let last = play(board, evening, heap)?;
    Ok((first, answer, last))
}

/// The same on a board that is made here: the law holds of all the calls, as they were answered.
pub fn work_from_new<A: Accumulator + Drop>(
    first: u8,
    mode: Mode,
    accumulator: A,
    morning: &[Call<A::Value>],
    noon: Call<A::Value>,
    evening: &[Call<A::Value>],
    heap: Global,
) -> Result<
    (
        Board<A>,
        Vec<Reply<A::Value>>,
        Reply<A::Value>,
        Vec<Reply<A::Value>>,
    ),
    AllocError,
>
    ghost limit: { ℕ }
    requires station { verdict (board_rules first) ≡ Ok tt }
    requires fresh { A.meaning accumulator ≡ new_meaning A.Value.Joining limit }
    ensures { IfOk result (λ v.
        let start = new_state A.Value.Joining first mode limit in
        let answered = zip morning.now v.1.items ++ (noon, v.2) ∷ zip evening.now v.3.items in
        LawOfTheRecord A.Value.Joining first start answered v.0.state) }
{
    let mut board = Board::new(first, mode, accumulator);
    let (replies, reply, last) = work_on(&mut board, morning, noon, evening, heap)?;
    Ok((board, replies, reply, last))
}

/// A call by its own method: its contract says what the rules say, and what follows the rules
/// goes on the record.
pub fn sign<A: Accumulator>(board: &mut Board<A>, caller: u8) -> Result<u32, Refusal>
    ensures { RecordGoesOn A.Value.Joining board.old.state
        ((record { caller = caller; action = Signal }, as_answer Signaled result) ∷ []) board.new.state }
{
    records_go_on::<A::Value>();
    board.signal(caller)
}

/// Two boards made alike, on accumulators of any two types, and a list played on each: where they
/// accept the same calls, each station's in the same order and no number entering twice, they
/// have answered alike and end the same.
pub fn in_two_orders<A: Accumulator + Drop, B: Accumulator<Value = A::Value> + Drop>(
    first: u8,
    mode: Mode,
    left: A,
    right: B,
    calls: &[Call<A::Value>],
    others: &[Call<A::Value>],
    heap: Global,
) -> Result<
    (
        Board<A>,
        Board<B>,
        Vec<Reply<A::Value>>,
        Vec<Reply<A::Value>>,
    ),
    AllocError,
>
    ghost limit: { ℕ }
    requires station { verdict (board_rules first) ≡ Ok tt }
    requires left { A.meaning left ≡ new_meaning A.Value.Joining limit }
    requires right { B.meaning right ≡ new_meaning A.Value.Joining limit }
    ensures { IfOk result (λ v. OrderFree first (zip calls.now v.2.items) v.0.state (zip others.now v.3.items) v.1.state) }
{
    let mut left_board = Board::new(first, mode, left);
    let mut right_board = Board::new(first, mode, right);
    let (left_replies, right_replies) = play_both(
        &mut left_board,
        &mut right_board,
        calls,
        others,
        heap,
    )?;
    Ok((left_board, right_board, left_replies, right_replies))
}
