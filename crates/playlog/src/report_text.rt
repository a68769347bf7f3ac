//! The text that `passlog` prints of a log.
ghost use Rattle.std.specs.Prelude.{◌≡◌, IfOk, string_bytes};
ghost use Rattle.playlog.specs.Outcomes.{log_outcomes};
ghost use Rattle.playlog.specs.Report.{lines_text, refusal_text, word_text, played_text, report_text};

use crate::outcomes::Outcome;
use crate::played_log::{PlayedLog, play_log};
use refusal::Refusal;
use shiftlog::Log;
use std::alloc::{AllocError, Global};

/// A line for each outcome.
pub fn lines(heap: Global, outcomes: &[Outcome]) -> Result<String, AllocError>
    ensures { IfOk result (λ text. string_bytes text ≡ lines_text outcomes.now) }
{
    let mut text = String::new(heap);
    for outcome in outcomes {
        writeln!(text, "{outcome}")?;
    }
    Ok(text)
}

/// How the lazy answers compare.
fn word_for(alike: bool) -> &'static str
    ensures { result.now ≡ word_text alike }
{
    if alike { "alike" } else { "differs" }
}

/// The lines of the records, played eagerly, and a last line with their count and whether the
/// lazy answers are alike.
fn played(heap: Global, log: &Log<'_>) -> Result<String, AllocError>
    ensures { IfOk result (λ text. string_bytes text ≡ played_text (log_outcomes log.now.bytes.now)) }
{
    let PlayedLog {
        outcomes,
        lazy_alike,
    } = play_log(heap, log)?;
    let mut text = lines(heap, outcomes.as_slice())?;
    let count = outcomes.len();
    let word = word_for(lazy_alike);
    writeln!(text, "{count} lazy {word}")?;
    Ok(text)
}

/// The one line of a refused log.
fn refused(heap: Global, refusal: Refusal) -> Result<String, AllocError>
    ensures { IfOk result (λ text. string_bytes text ≡ refusal_text refusal) }
{
    format!(in heap; "log no {refusal}\n")
}

/// What a log's steps are answered, or why it is refused. It may give up for want of memory.
pub fn report(heap: Global, bytes: &[u8]) -> Result<String, AllocError>
    ensures { IfOk result (λ text. string_bytes text ≡ report_text bytes.now) }
{
    match Log::check(bytes) {
        Ok(log) => played(heap, &log),
        Err(refusal) => refused(heap, refusal),
    }
}
