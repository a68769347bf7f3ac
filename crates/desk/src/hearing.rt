//! What a line comes to: nothing, a request, or what is wrong with it.
ghost use Rattle.std.specs.Prelude.{◌≡◌, cond, option_map, IfOk, Some, None};
ghost use Rattle.std.specs.Str.{is_utf8};
ghost use Rattle.desk.specs.Heard.{by_words, heard_in};

use crate::lines::request_of;
use crate::requests::Request;
use std::alloc::{AllocError, Global};
use steptext::Mismatch;
use textlines::{MAX_LINE_LEN, says_nothing};

/// What a line comes to.
#[derive(Debug, Drop)]
pub enum Heard {
    /// It is blank or a comment.
    Nothing,
    Asked(Request),
    /// What it has where something else was expected.
    Wrong(Mismatch),
}

/// What a line of words comes to.
fn by_words(request: Result<Request, Mismatch>) -> Heard
    ensures { result ≡ by_words request }
{
    match request {
        Ok(request) => Heard::Asked(request),
        Err(mismatch) => Heard::Wrong(mismatch),
    }
}

/// The line as text, where it is in UTF-8.
fn text_of(line: &[u8]) -> Option<&str>
    ensures { option_map (λ text. text.now) result ≡ cond (is_utf8 line.now) (Some line.now) None }
{
    str::from_utf8(line).ok()
}

/// What a line comes to.
pub fn heard_of(heap: Global, line: &[u8]) -> Result<Heard, AllocError>
    ensures { IfOk result (λ heard. heard ≡ heard_in line.now) }
{
    if line.len() > MAX_LINE_LEN {
        return Ok(Heard::Wrong(Mismatch::too_long()));
    }
    if says_nothing(line) {
        return Ok(Heard::Nothing);
    }
    match text_of(line) {
        None => Ok(Heard::Wrong(Mismatch::not_text())),
        Some(text) => Ok(by_words(request_of(heap, text)?)),
    }
}
