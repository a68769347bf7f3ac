//! Reads a log from standard input, plays it on a board, and prints what each of its steps is
//! answered, or why the log is refused.

#![tactic(auto)]

ghost use Rattle.std.specs.Prelude.{IfSome, OnOk};
ghost use Rattle.std.specs.Io.KnownBytes.{Appends};
ghost use Rattle.playlog.specs.Report.{report_text};

use commandline::is_to_work;
use playlog::report;
use shiftlog::{read_log, write_bytes};
use std::alloc::Global;
use std::io::{Read, Write};

const ABOUT: &str = "\
Reads a log from standard input, plays it on a pass board, and prints what each step is answered.";

const DETAILS: &str = "\
A line of output: the record's number, the verb, the station, and then ok with the answer's numbers
or no with the refusal's number. The last line counts the records. A refused log prints one line:
log no, the refusal and its place.

Status: 0 where the log was played or refused, 1 where it could not be read or written.

Example:
  passlog < coil.log";

/// Writes the report of all that the reader gives, and nothing else.
fn run<R: Read + Drop, W: Write>(heap: Global, reader: R, writer: &mut W) -> anyhow::Result<()>
    ensures { OnOk result (IfSome (R.remaining reader) (λ log.
        Appends (W.contents writer.old) (W.contents writer.new) (report_text log))) }
{
    let bytes = read_log(heap, reader)?;
    let text = report(heap, bytes.as_slice())?;
    write_bytes(writer, text.as_bytes())?;
    Ok(())
}

fn main(rt: HostRuntime) -> anyhow::Result<()> {
    if is_to_work(&rt, "passlog", ABOUT, DETAILS)? {
        run(rt.alloc(), rt.stdin(), &mut rt.stdout())?;
    }
    Ok(())
}
