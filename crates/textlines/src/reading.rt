//! The next line of a reader.
ghost use Rattle.std.specs.Prelude.{◌≡◌, ◌≢◌, ◌≤◌, length, take, All, IfOk, IfSome, OnOk, OnErr, vec_len};
ghost use Rattle.std.specs.Io.KnownBytes.{Consumes};
ghost use Rattle.std.specs.Io.BufRead.{first_line, strip_last, DropsThrough};
ghost use Rattle.textlines.specs.Lines.{next_line, MovesPast};
ghost use Rattle.textlines.specs.Stops.{is_too_long, is_full, given, IsEndedFor, line_at, kept_at};

use crate::MAX_LINE_LEN;
use crate::bytes::next_byte;
use std::io;
use std::io::{ErrorKind, Read};

/// What was read of a line.
#[derive(Clone, Copy, Debug, PartialEq, Eq)]
pub enum Line {
    /// All of it.
    Whole,
    /// The first bytes of a line that is longer than the longest.
    TooLong,
    /// Nothing, since no byte was left.
    Ended,
}

/// Where a reading of a line stopped: at a newline, at the end of the text, or where the line was
/// too long.
#[derive(Clone, Copy)]
enum Stop {
    LineEnd,
    TextEnd,
    Full,
}

/// How many bytes the line has without a carriage return at its end.
fn text_len(line: &[u8]) -> usize
    ensures { result ≡ length (strip_last 13 line.now) }
{
    let len = line.len();
    if len > 0 && line[len - 1] == b'\r' {
        len - 1
    } else {
        len
    }
}

/// Whether the line is too long, without a carriage return at its end.
fn is_too_long(line: &[u8]) -> bool
    ensures { result ≡ is_too_long line.now }
{
    text_len(line) > MAX_LINE_LEN
}

/// Reads into the line up to a newline, which it leaves out. Room is made first, so that no byte is
/// lost where memory fails.
fn gather<R: Read>(reader: &mut R, line: &mut Vec<u8>) -> io::Result<Stop>
    ensures given { IfOk result (λ stop. Consumes (R.remaining reader.old) (R.remaining reader.new) (given stop line.new.items)) }
    ensures ended { IfOk result (λ stop. IsEndedFor stop (R.remaining reader.new)) }
    ensures long { IfOk result (λ stop. is_too_long line.new.items ≡ is_full stop) }
    ensures one_line { All (λ byte. byte ≢ 10) line.new.items }
    ensures stands { OnErr result (Consumes (R.remaining reader.old) (R.remaining reader.new) line.new.items) }
{
    line.clear();
    line.reserve(MAX_LINE_LEN + 2)?;
    while !is_too_long(line.as_slice()) {
        match next_byte(reader)? {
            None => return Ok(Stop::TextEnd),
            Some(b'\n') => return Ok(Stop::LineEnd),
            Some(byte) => line.push(byte)?,
        }
    }
    Ok(Stop::Full)
}

/// What the line is that was read so far, and no more of it than the longest line has.
fn finish(stop: Stop, line: &mut Vec<u8>) -> Line
    ensures is { result ≡ line_at stop line.old.items }
    ensures keeps { line.new.items ≡ kept_at stop line.old.items }
{
    match stop {
        Stop::LineEnd => {
            let len = text_len(line.as_slice());
            line.truncate(len);
            Line::Whole
        }
        Stop::TextEnd if line.is_empty() => Line::Ended,
        Stop::TextEnd if line.len() <= MAX_LINE_LEN => Line::Whole,
        Stop::TextEnd | Stop::Full => {
            line.truncate(MAX_LINE_LEN);
            Line::TooLong
        }
    }
}

/// Reads the next line without its end, which is a newline or a carriage return and a newline; a
/// last line may have none. Of a line that is too long the first bytes are kept, and the reader is
/// left within it. Where reading or memory fails, the line has all that was read.
pub fn read_line<R: Read>(reader: &mut R, line: &mut Vec<u8>) -> io::Result<Line>
    ensures kind { IfOk result (λ kind. IfSome (R.remaining reader.old) (λ text. kind ≡ next_line text)) }
    ensures bytes { OnOk result (IfSome (R.remaining reader.old) (λ text.
        line.new.items ≡ take MAX_LINE_LEN (first_line text))) }
    ensures past { IfOk result (λ kind. MovesPast kind (R.remaining reader.old) (R.remaining reader.new)) }
    ensures short { OnOk result (vec_len line.new ≤ MAX_LINE_LEN) }
    ensures stands { OnErr result (Consumes (R.remaining reader.old) (R.remaining reader.new) line.new.items) }
{
    let stop = gather(reader, line)?;
    Ok(finish(stop, line))
}

/// Goes on to the next line, in no memory.
pub fn skip_line<R: Read>(reader: &mut R) -> io::Result<()>
    ensures { OnOk result (DropsThrough (R.remaining reader.old) (R.remaining reader.new) 10) }
{
    for _ in 0..u64::MAX {
        match next_byte(reader)? {
            None | Some(b'\n') => return Ok(()),
            Some(_) => {}
        }
    }
    Err(io::Error::new(ErrorKind::InvalidData, "a line without end"))
}
