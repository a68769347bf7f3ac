//! What a line should have where it has something else.
ghost use Rattle.std.specs.Prelude.{Some};
ghost use Rattle.steptext.specs.Texts.{expected_text};

use std::fmt;
use textlines::MAX_LINE_LEN;

/// What was expected where a line is wrong.
#[derive(Clone, Copy, Debug, PartialEq, Eq)]
pub enum Expected {
    Verb,
    /// A verb, or a word that asks for whom a station waits, or to compare two.
    Request,
    Station,
    Mode,
    Length,
    Deviation,
    Marks,
    /// No further word.
    End,
    /// Bytes that are text.
    Text,
    /// No more bytes than the longest line has.
    ShortLine,
}

impl fmt::Display for Expected {
    ghost output = { λ e. Some (expected_text e) };

    fn fmt<W: fmt::Write>(&self, f: &mut fmt::Formatter<W>) -> fmt::Result {
        let text = match self {
            Expected::Verb => "register, signal, wait, drop, send, result or view",
            Expected::Request => {
                "register, signal, wait, drop, send, result, view, holders or compare"
            }
            Expected::Station => "a station, 0 to 255",
            Expected::Mode => "SW, SO or WO",
            Expected::Length => "a length, 0 to 4294967295",
            Expected::Deviation => "a deviation, -32768 to 32767",
            Expected::Marks => "marks, 0 to 65535",
            Expected::End => "the end of the line",
            Expected::Text => "text in UTF-8",
            Expected::ShortLine => return write!(f, "a line of at most {MAX_LINE_LEN} bytes"),
        };
        write!(f, "{text}")
    }
}
