//! Lines that a board is told one after another, each answered at once.
ghost use Rattle.std.specs.Prelude.{◌≡◌, ◌+◌, ◌<◌, ◌^◌, Some, OnOk, IfOk, IfSome};
ghost use Rattle.std.specs.Io.KnownBytes.{Appends};
ghost use Rattle.std.specs.Io.BufRead.{drop_through};
ghost use Rattle.std.specs.Str.Lines.{lines};
ghost use Rattle.desk.specs.Heard.{next_heard};
ghost use Rattle.desk.specs.Answers.{request_step};
ghost use Rattle.desk.specs.Texts.{told_line, complaint_text};
ghost use Rattle.desk.specs.Sittings.{written};

use crate::answers::answer;
use crate::hearing::{Heard, heard_of};
use crate::measured::Measured;
use crate::replies::Told;
use crate::requests::Request;
use accumulator::Accumulator;
use board::Board;
use shiftlog::write_bytes;
use std::alloc::{AllocError, Global};
use std::io;
use std::io::{ErrorKind, Read, Write};
use steptext::{BadLine, Mismatch};
use textlines::{Line, read_line, skip_line};
use thiserror::Error;

/// Why lines are answered no further.
#[derive(Debug, Drop, Error)]
pub enum Broken {
    #[error("{0}")]
    Line(BadLine),
    #[error(transparent)]
    Stream(#[from] io::Error),
    #[error(transparent)]
    Memory(#[from(alloc)] AllocError),
}

/// What the next line comes to, or none at the end. `line` is room for it.
fn hear<R: Read>(heap: Global, reader: &mut R, line: &mut Vec<u8>) -> Result<Option<Heard>, Broken>
    ensures { IfOk result (λ heard. IfSome (R.remaining reader.old) (λ text.
        (heard ≡ next_heard text) × (R.remaining reader.new ≡ Some (drop_through 10 text)))) }
{
    match read_line(reader, line)? {
        Line::Ended => Ok(None),
        Line::TooLong => {
            skip_line(reader)?;
            Ok(Some(Heard::Wrong(Mismatch::too_long())))
        }
        Line::Whole => Ok(Some(heard_of(heap, line.as_slice())?)),
    }
}

/// Writes what a request is answered, on a line of its own.
fn tell<V: Measured, A: Accumulator<Value = V>, W: Write>(
    heap: Global,
    board: &mut Board<A>,
    number: usize,
    request: Request,
    answers: &mut W,
) -> Result<(), Broken>
    ensures board { board.new ≡ (request_step V.Joining A.changes V.part_of board.old request).1 }
    ensures written { OnOk result (Appends (W.contents answers.old) (W.contents answers.new)
        (told_line V.text number request (request_step V.Joining A.changes V.part_of board.old request).0)) }
{
    let result = answer(board, request);
    let told = Told {
        number,
        request,
        result,
    };
    let text = format!(in heap; "{told}\n")?;
    write_bytes(answers, text.as_bytes())?;
    Ok(())
}

/// Tells of a wrong line, or ends there.
fn complain<E: Write>(
    heap: Global,
    line: BadLine,
    strict: bool,
    complaints: &mut E,
) -> Result<(), Broken>
    ensures { OnOk result (IfSome (complaint_text line) (λ text. Appends (E.contents complaints.old) (E.contents complaints.new) text)) }
{
    if strict {
        return Err(Broken::Line(line));
    }
    let text = format!(in heap; "{line}\n")?;
    write_bytes(complaints, text.as_bytes())?;
    Ok(())
}

/// Answers the requests of all lines that the reader gives, each at once and on a line of its own,
/// and tells of wrong lines, or ends at the first one where that is wanted.
pub fn answer_lines<V: Measured, A: Accumulator<Value = V>, R: Read, W: Write, E: Write>(
    heap: Global,
    board: &mut Board<A>,
    strict: bool,
    reader: &mut R,
    answers: &mut W,
    complaints: &mut E,
) -> Result<(), Broken>
    ensures { OnOk result (IfSome (R.remaining reader.old) (λ text.
        Appends (W.contents answers.old) (W.contents answers.new)
        (written V.Joining A.changes V.part_of V.text (record { answered = 0; board = board.old }) (lines text)))) }
{
    let mut line = Vec::new(heap);
    let mut answered = 0usize;
    for i in 0..usize::MAX {
        let Some(heard) = hear(heap, reader, &mut line)? else {
            return Ok(());
        };
        match heard {
            Heard::Nothing => {}
            Heard::Asked(request) => {
                answered += 1;
                tell(heap, board, answered, request, answers)?;
            }
            Heard::Wrong(mismatch) => {
                let number = i + 1;
                complain(heap, BadLine { number, mismatch }, strict, complaints)?;
            }
        }
    }
    Err(Broken::Stream(io::Error::new(ErrorKind::FileTooLarge, "more lines than can be counted")))
}
