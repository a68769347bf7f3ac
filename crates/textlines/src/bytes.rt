//! The next byte of a reader.
ghost use Rattle.std.specs.Prelude.{option_to_list, IfOk, IfNone, OnErr};
ghost use Rattle.std.specs.Io.KnownBytes.{Consumes, IsAtEnd, Keeps};

use std::io;
use std::io::{ErrorKind, Read};

/// The next byte, or none at the end. A read that was interrupted is tried again.
pub(crate) fn next_byte<R: Read>(reader: &mut R) -> io::Result<Option<u8>>
    ensures taken { IfOk result (λ byte. Consumes (R.remaining reader.old) (R.remaining reader.new) (option_to_list byte)) }
    ensures end { IfOk result (λ byte. IfNone byte (IsAtEnd (R.remaining reader.new))) }
    ensures kept { OnErr result (Keeps (R.remaining reader.old) (R.remaining reader.new)) }
{
    let mut byte = [0u8; 1];
    for _ in 0..u64::MAX {
        match reader.read(&mut byte) {
            Ok(0) => return Ok(None),
            Ok(_) => return Ok(Some(byte[0])),
            Err(e) => {
                if e.kind() != ErrorKind::Interrupted {
                    return Err(e);
                }
            }
        }
    }
    Err(io::Error::new(ErrorKind::TimedOut, "every read was interrupted"))
}
