//! Reads a log from standard input and writes its steps to standard output, one to a line.

#![tactic(auto)]

ghost use Rattle.std.specs.Prelude.{◌≡◌, IfErr, IfSome, IsErr, IsErrAnd, OnOk, Ok, Some};
ghost use Rattle.std.specs.Io.KnownBytes.{Appends, Keeps};
ghost use Rattle.anyhow.specs.Error.{HasMessage};
ghost use Rattle.refusal.specs.Rules.{verdict};
ghost use Rattle.refusal.specs.Sentences.{told_text};
ghost use Rattle.shiftlog.specs.Log.{log_rules};
ghost use Rattle.steptext.specs.Printed.{log_text};
ghost use Rattle.steptext.specs.Said.{log_said};

use commandline::{in_words, is_to_work};
use shiftlog::{Log, read_log, write_bytes};
use std::alloc::Global;
use std::io::{Read, Write};
use steptext::text_of_log;

const ABOUT: &str = "\
Reads a log from standard input and writes its steps to standard output, one to a line.";

const DETAILS: &str = "\
The lines are those that logwrite takes: logread | logwrite gives the same log.

Status: 0 where the lines were written, 1 where the log is refused, of which standard error tells,
or where reading or writing failed.

Example:
  logread < coil.log";

/// Writes the lines of a log's steps, and nothing else. Read again they say the log. Bytes that are
/// no accepted log are refused: nothing is written, and the error tells the refusal in words.
fn write_lines<W: Write>(heap: Global, bytes: &[u8], writer: &mut W) -> anyhow::Result<()>
    ensures accepted { OnOk result (verdict (log_rules bytes.now) ≡ Ok tt) }
    ensures written { OnOk result (Appends (W.contents writer.old) (W.contents writer.new) (log_text bytes.now)) }
    ensures said { OnOk result (log_said (log_text bytes.now) ≡ Some bytes.now) }
    ensures kept { IsErr (verdict (log_rules bytes.now)) → Keeps (W.contents writer.old) (W.contents writer.new) }
    ensures told { IfErr (verdict (log_rules bytes.now)) (λ refusal. IsErrAnd result (HasMessage (Some (told_text refusal)))) }
{
    let log = Log::check(bytes).map_err(|refusal| in_words(refusal))?;
    let text = text_of_log(heap, &log)?;
    write_bytes(writer, text.as_bytes())?;
    Ok(())
}

/// Writes the lines of the steps of the log that the reader gives, and nothing else; where what it
/// gives is no accepted log, nothing at all.
fn run<R: Read + Drop, W: Write>(heap: Global, reader: R, writer: &mut W) -> anyhow::Result<()>
    ensures accepted { OnOk result (IfSome (R.remaining reader) (λ log. verdict (log_rules log) ≡ Ok tt)) }
    ensures written { OnOk result (IfSome (R.remaining reader) (λ log.
        Appends (W.contents writer.old) (W.contents writer.new) (log_text log))) }
    ensures said { OnOk result (IfSome (R.remaining reader) (λ log. log_said (log_text log) ≡ Some log)) }
    ensures refused { IfSome (R.remaining reader) (λ log.
        IsErr (verdict (log_rules log)) → Keeps (W.contents writer.old) (W.contents writer.new)) }
{
    let bytes = read_log(heap, reader)?;
    write_lines(heap, bytes.as_slice(), writer)
}

fn main(rt: HostRuntime) -> anyhow::Result<()> {
    if is_to_work(&rt, "logread", ABOUT, DETAILS)? {
        run(rt.alloc(), rt.stdin(), &mut rt.stdout())?;
    }
    Ok(())
}
