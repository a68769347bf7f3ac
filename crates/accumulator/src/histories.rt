//! The calls of an accumulator as values, and lists of them played.
ghost use Rattle.std.specs.Prelude.{◌≡◌, ◌⊎◌, IfOk, MatchResult};
ghost use Rattle.refusal.specs.Trace.{trace};
ghost use Rattle.accumulator.specs.Calls.{account_of, account_step};

use crate::Accumulator;
use refusal::Refusal;
use std::alloc::{AllocError, Global};

/// A call with what it is given.
#[derive(Clone, Copy)]
pub enum Call<V> {
    Add { station: u8, pass: u32, value: V },
    Total { pass: u32 },
    MoveOn,
}

/// What a call answers: `None` where it is made and tells nothing.
pub type Answer<V> = Result<Option<V>, Refusal>;

/// Makes one call.
// A match and no closure: calls are values, so that a list of them can be written down.
fn make<A: Accumulator>(accumulator: &mut A, call: Call<A::Value>) -> Answer<A::Value>
    ensures { (result, account_of A.meaning A.cells accumulator.new)
        ≡ account_step A.Value.Joining A.changes (account_of A.meaning A.cells accumulator.old) call }
{
    match call {
        Call::Add {
            station,
            pass,
            value,
        } => accumulator.add(station, pass, value).map(|()| None),
        Call::Total { pass } => A::total(accumulator, pass).map(Some),
        Call::MoveOn => accumulator.move_on().map(|()| None),
    }
}

/// Makes the calls in turn, and hands out their answers. Where memory fails, no call is made.
// Not one function with the board's: a trait for both, with its relation and what leads from
// there to each contract, is longer than the two loops.
#[tactic(auto, using(refusal::proofs::Traces::trace_more, refusal::proofs::Traces::trace_all))]
pub fn play<A: Accumulator>(
    accumulator: &mut A,
    calls: &[Call<A::Value>],
    heap: Global,
) -> Result<Vec<Answer<A::Value>>, AllocError>
    ensures { let before = account_of A.meaning A.cells accumulator.old in
        let after = account_of A.meaning A.cells accumulator.new in
        let played = trace (account_step A.Value.Joining A.changes) before calls.now in
        MatchResult result (λ v. (v.items, after) ≡ played) (λ _. after ≡ before) }
{
    let mut answers = Vec::with_capacity(heap, calls.len())?;
    for call in calls {
        answers.push(make(accumulator, *call))?;
    }
    Ok(answers)
}

/// Plays the same calls on two accumulators. Where they mean the same, so do their answers. Where
/// memory fails, the right one is as it was, and so is the left one unless it has been played.
pub fn play_both<A: Accumulator, B: Accumulator<Value = A::Value>>(
    left: &mut A,
    right: &mut B,
    calls: &[Call<A::Value>],
    heap: Global,
) -> Result<(Vec<Answer<A::Value>>, Vec<Answer<A::Value>>), AllocError>
    ensures alike { IfOk result (λ v. A.meaning left.old ≡ B.meaning right.old →
        (v.0.items ≡ v.1.items) × (A.meaning left.new ≡ B.meaning right.new)) }
    ensures left { let before = account_of A.meaning A.cells left.old in
        let after = account_of A.meaning A.cells left.new in
        let played = trace (account_step A.Value.Joining A.changes) before calls.now in
        MatchResult result (λ v. (v.0.items, after) ≡ played) (λ _. (after ≡ before) ⊎ (after ≡ played.1)) }
    ensures right { let before = account_of B.meaning B.cells right.old in
        let after = account_of B.meaning B.cells right.new in
        let played = trace (account_step A.Value.Joining B.changes) before calls.now in
        MatchResult result (λ v. (v.1.items, after) ≡ played) (λ _. after ≡ before) }
{
    let left_answers = play(left, calls, heap)?;
    let right_answers = play(right, calls, heap)?;
    Ok((left_answers, right_answers))
}
