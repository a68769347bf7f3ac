//! What a board answers to requests.
use crate::requests::Request;
use calls::Answer;
use refusal::Refusal;

/// What an accepted request is answered.
#[derive(Clone, Copy, Debug, PartialEq, Eq)]
pub enum Reply<V> {
    /// The answer of a call.
    Answered(Answer<V>),
    /// The stations that the waiter waits for, bit k being station k's, and how many they are.
    Holders { set: u64, count: u32 },
    /// Whether the first view happened before the second, and the second before the first.
    Order { forward: bool, backward: bool },
}

/// A request by its number, and what it was answered.
#[derive(Clone, Copy, Debug, PartialEq, Eq)]
pub struct Told<V> {
    pub number: usize,
    pub request: Request,
    pub result: Result<Reply<V>, Refusal>,
}
