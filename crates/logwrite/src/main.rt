//! Reads steps from standard input, one to a line, and writes their log to standard output.

#![tactic(auto)]

ghost use Rattle.std.specs.Prelude.{IfSome, IsErr, IsNone, IsSomeAnd, OnOk};
ghost use Rattle.std.specs.Io.KnownBytes.{Appends, Keeps};
ghost use Rattle.steptext.specs.FromReader.{log_read};
ghost use Rattle.steptext.specs.Said.{log_said};

use commandline::is_to_work;
use shiftlog::write_bytes;
use std::alloc::Global;
use std::io::{BufReader, Read, Write};
use steptext::log_of_lines;

const ABOUT: &str = "\
Reads steps from standard input, one to a line, and writes their log to standard output.";

const DETAILS: &str = "\
Lines:
  register STATION NEWCOMER MODE          MODE is SW, SO or WO
  signal STATION
  wait STATION
  drop STATION
  send STATION LENGTH DEVIATION MARKS
  result STATION
  view STATION
Blank lines and lines that begin with # are skipped. A log has at most 3968 steps.

Status: 0 where the log was written; 1, with a message on standard error, where a line is wrong or
there are too many steps, and then nothing is written, or where reading or writing failed.

Example:
  printf 'signal 0\\nwait 0\\n' | logwrite > coil.log";

/// Writes the log that the reader's text says, and nothing else; where the text says none, nothing
/// at all.
fn run<R: Read + Drop, W: Write>(heap: Global, reader: R, writer: &mut W) -> anyhow::Result<()>
    ensures written { OnOk result (IfSome (R.remaining reader) (λ text.
        IsSomeAnd (log_said text) (Appends (W.contents writer.old) (W.contents writer.new)))) }
    ensures refused { IfSome (R.remaining reader) (λ text.
        IsNone (log_said text) → Keeps (W.contents writer.old) (W.contents writer.new)) }
    // Too long lines are among what is refused here.
    ensures stopped { IfSome (R.remaining reader) (λ text.
        IsErr (log_read text) → IsErr result × Keeps (W.contents writer.old) (W.contents writer.new)) }
{
    let mut reader = BufReader::new(heap, reader)?;
    let log = log_of_lines(heap, &mut reader)??;
    write_bytes(writer, log.as_slice())?;
    Ok(())
}

fn main(rt: HostRuntime) -> anyhow::Result<()> {
    if is_to_work(&rt, "logwrite", ABOUT, DETAILS)? {
        run(rt.alloc(), rt.stdin(), &mut rt.stdout())?;
    }
    Ok(())
}
