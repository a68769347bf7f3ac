//! The request that a line makes.
ghost use Rattle.std.specs.Prelude.{◌≡◌, map, IfOk};
ghost use Rattle.steptext.specs.Lines.{words_of};
ghost use Rattle.desk.specs.Requests.{or_request, call_in, holders_in, compare_in, request_placed, request_in};

use crate::requests::Request;
use std::alloc::{AllocError, Global};
use steptext::{
    Expected, Mismatch, Misplaced, at_place, ended_at, station, step_placed, with_found, word_at,
    words_of,
};

/// The waiter, and no further word.
fn holders(words: &[&str]) -> Result<Request, Misplaced>
    ensures { result ≡ holders_in (map (λ w. w.now) words.now) }
{
    let waiter = at_place(1, station(word_at(words, 1)))?;
    ended_at(2, words, Request::Holders { waiter })
}

/// Two stations, and no further word.
fn compare(words: &[&str]) -> Result<Request, Misplaced>
    ensures { result ≡ compare_in (map (λ w. w.now) words.now) }
{
    let first = at_place(1, station(word_at(words, 1)))?;
    let second = at_place(2, station(word_at(words, 2)))?;
    ended_at(3, words, Request::Compare { first, second })
}

/// What was expected, where a request that is no call would do as well.
fn or_request(expected: Expected) -> Expected
    ensures { result ≡ or_request expected }
{
    match expected {
        Expected::Verb => Expected::Request,
        other => other,
    }
}

/// One of the seven calls.
fn call(words: &[&str]) -> Result<Request, Misplaced>
    ensures { result ≡ call_in (map (λ w. w.now) words.now) }
{
    match step_placed(words) {
        Ok(step) => Ok(Request::Call(step)),
        Err(Misplaced { expected, place }) => Err(Misplaced {
            expected: or_request(expected),
            place,
        }),
    }
}

/// The request that the words make, or what the first wrong one should have been.
fn request_placed(words: &[&str]) -> Result<Request, Misplaced>
    ensures { result ≡ request_placed (map (λ w. w.now) words.now) }
{
    match word_at(words, 0) {
        "holders" => holders(words),
        "compare" => compare(words),
        _ => call(words),
    }
}

/// The request that a line makes, in words parted by single spaces, or what its first wrong word
/// should have been, and what it is.
pub fn request_of(heap: Global, line: &str) -> Result<Result<Request, Mismatch>, AllocError>
    ensures { IfOk result (λ request. request ≡ request_in (words_of line.now)) }
{
    let words = words_of(heap, line)?;
    with_found(heap, &words, request_placed(&words))
}
