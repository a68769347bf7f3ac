//! What a board answers to a request.
ghost use Rattle.std.specs.Prelude.{◌≡◌, ◌↔◌, true};
ghost use Rattle.calls.specs.declared.views.View.{View};
ghost use Rattle.calls.specs.Views.{Before};
ghost use Rattle.desk.specs.Answers.{is_before, order_of, view_told, compared, request_step};

use crate::measured::Measured;
use crate::replies::Reply;
use crate::requests::Request;
use accumulator::Accumulator;
use board::Board;
use calls::{View, compare};
use refusal::Refusal;

/// Which of two views happened before the other.
fn order_of<V>(first: &View, second: &View) -> Reply<V>
    ensures { result ≡ order_of first.now second.now }
{
    let (forward, backward) = compare(first, second);
    Reply::Order { forward, backward }
}

/// A member's view.
fn seen<A: Accumulator>(board: &Board<A>, station: u8) -> Result<View, Refusal>
    ensures { result ≡ view_told board.now.state station }
{
    board.view(station)
}

/// Which of two members' views happened before the other. The first refusal, if one has no view.
fn compared<A: Accumulator>(
    board: &Board<A>,
    first: u8,
    second: u8,
) -> Result<Reply<A::Value>, Refusal>
    ensures { result ≡ compared board.now.state first second }
{
    let first = seen(board, first)?;
    let second = seen(board, second)?;
    Ok(order_of(&first, &second))
}

/// What the board answers to a request, and does.
pub fn answer<V: Measured, A: Accumulator<Value = V>>(
    board: &mut Board<A>,
    request: Request,
) -> Result<Reply<V>, Refusal>
    ensures result { (result, board.new) ≡ request_step V.Joining A.changes V.part_of board.old request }
    ensures before { (v w : View) → (is_before v w ≡ true) ↔ Before v w }
{
    match request {
        Request::Call(call) => {
            let call = call.map(|reading| V::part_of(reading));
            board.call(call).map(|answer| Reply::Answered(answer))
        }
        Request::Holders { waiter } => board
            .holders(waiter)
            .map(|(set, count)| Reply::Holders { set, count }),
        Request::Compare { first, second } => compared(board, first, second),
    }
}
