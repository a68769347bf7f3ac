//! A fact of one's own, on top of the law of the record: a pass has one total.
ghost use Rattle.std.specs.Prelude.{◌≡◌, ℕ, IfOk};
ghost use Rattle.accumulator.specs.Meaning.{new_meaning};
ghost use Rattle.calling.specs.Totals.{shift_answers, OneTotalForEachPass};

use accumulator::Accumulator;
use board::{Board, play};
use calls::{Answer, Call, Mode};
use refusal::Refusal;
use std::alloc::{AllocError, Global};

/// Plays the calls of a shift on a board that station 0 makes as SW, and hands out what each is
/// answered. On an accumulator just made, two totals handed out for one pass are the same value:
/// whoever asks, and however late.
pub fn play_shift<A: Accumulator + Drop>(
    accumulator: A,
    calls: &[Call<A::Value>],
    heap: Global,
) -> Result<Vec<Result<Answer<A::Value>, Refusal>>, AllocError>
    ensures answers { IfOk result (λ v. v.items ≡ shift_answers A.Value.Joining (A.meaning accumulator) calls.now) }
    ensures one_total { (limit : ℕ) → A.meaning accumulator ≡ new_meaning A.Value.Joining limit →
        IfOk result (λ v. OneTotalForEachPass v.items) }
{
    let mut board = Board::new(0, Mode::SignalWait, accumulator);
    play(&mut board, calls, heap)
}
