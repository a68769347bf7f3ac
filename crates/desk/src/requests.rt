//! What a line asks of a board.
use calls::Call;
use shiftlog::Reading;

/// What is asked of a board.
#[derive(Clone, Copy, Debug, PartialEq, Eq)]
pub enum Request {
    /// One of the seven calls. A send has a reading, of which the kind of value takes its part.
    Call(Call<Reading>),
    /// Whom a waiter waits for.
    Holders { waiter: u8 },
    /// Which of two members' views happened before the other.
    Compare { first: u8, second: u8 },
}
