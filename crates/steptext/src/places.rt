//! The words of a line by their places, and what was expected where another one stands or none.
ghost use Rattle.std.specs.Prelude.{◌≡◌, map, slice_get, IfOk};
ghost use Rattle.steptext.specs.Lines.{word, words_of, at_place, ended_at, found_in, with_found};

use crate::expectations::Expected;
use crate::found::{Found, Mismatch, Word};
use std::alloc::{AllocError, Global};

/// What was expected at a place of the line, counted from 0, where another word stands or none.
#[derive(Clone, Copy, Debug, PartialEq, Eq)]
pub struct Misplaced {
    pub expected: Expected,
    pub place: usize,
}

/// The words of a line, parted by single spaces.
pub fn words_of(heap: Global, line: &str) -> Result<Vec<&str>, AllocError>
    ensures { IfOk result (λ words. map (λ w. w.now) words.items ≡ words_of line.now) }
{
    line.split(' ').collect(heap)
}

/// A word of the line, empty where there are not so many.
pub fn word_at<'a>(words: &[&'a str], place: usize) -> &'a str
    ensures { result.now ≡ word (map (λ w. w.now) words.now) place }
{
    words.get(place).copied().unwrap_or("")
}

/// What the word at a place says, or what was expected there.
pub fn at_place<T>(place: usize, said: Result<T, Expected>) -> Result<T, Misplaced>
    ensures { result ≡ at_place place said }
{
    match said {
        Ok(value) => Ok(value),
        Err(expected) => Err(Misplaced { expected, place }),
    }
}

/// What the words say, where the line ends before the place.
pub fn ended_at<T: Copy>(place: usize, words: &[&str], said: T) -> Result<T, Misplaced>
    ensures { result ≡ ended_at place (map (λ w. w.now) words.now) said }
{
    if words.len() != place {
        return Err(Misplaced {
            expected: Expected::End,
            place,
        });
    }
    Ok(said)
}

/// The word at a place, or that the line ends before it.
fn found_at(heap: Global, words: &[&str], place: usize) -> Result<Found, AllocError>
    ensures { IfOk result (λ found. found ≡ found_in (slice_get (map (λ w. w.now) words.now) place)) }
{
    match words.get(place) {
        Some(word) => Ok(Found::Word(Word::new(heap, word)?)),
        None => Ok(Found::LineEnd),
    }
}

/// What the words say, or what the first wrong one should have been, and what it is.
pub fn with_found<T>(
    heap: Global,
    words: &[&str],
    said: Result<T, Misplaced>,
) -> Result<Result<T, Mismatch>, AllocError>
    ensures { IfOk result (λ answer. answer ≡ with_found (map (λ w. w.now) words.now) said) }
{
    match said {
        Ok(value) => Ok(Ok(value)),
        Err(Misplaced { expected, place }) => {
            let found = found_at(heap, words, place)?;
            Ok(Err(Mismatch { expected, found }))
        }
    }
}
