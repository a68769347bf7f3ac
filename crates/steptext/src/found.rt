//! What a line has where something else was expected.
ghost use Rattle.std.specs.Prelude.{◌≡◌, IfOk};
ghost use Rattle.std.specs.Fmt.{debug_str};
ghost use Rattle.steptext.specs.Lines.{not_text, too_long};
ghost use Rattle.steptext.specs.Texts.{found_text, mismatch_text};

use crate::expectations::Expected;
use std::alloc::{AllocError, Global};
use std::fmt;
use std::marker::Model;

/// A word of a line.
#[derive(Debug, Drop)]
pub struct Word {
    text: String,
}

impl Model for Word {
    ghost use Rattle.std.specs.Prelude.{ℕ, List, string_bytes};

    ghost Value = { List ℕ };

    ghost view = { λ word. string_bytes word.text };
}

impl Word {
    /// A copy of the word.
    pub(crate) fn new(heap: Global, word: &str) -> Result<Word, AllocError>
        ensures { IfOk result (λ copy. copy ≡ word.now) }
    {
        let text = String::from_str(heap, word)?;
        Ok(Word { text })
    }

    /// The word as it stands in the line.
    pub fn as_str(&self) -> &str
        ensures { result.now ≡ self.now }
    {
        self.text.as_str()
    }
}

/// In quotes, with what is invisible shown by backslashes. The promise is of words in ASCII.
impl fmt::Display for Word {
    ghost output = { debug_str };

    fn fmt<W: fmt::Write>(&self, f: &mut fmt::Formatter<W>) -> fmt::Result {
        let text = self.as_str();
        write!(f, "{text:?}")
    }
}

/// What stands in a line where something else was expected.
#[derive(Debug, Drop)]
pub enum Found {
    Word(Word),
    /// No further word.
    LineEnd,
    /// Bytes that are no text.
    OtherBytes,
    /// More bytes than the longest line has.
    LongerLine,
}

impl fmt::Display for Found {
    ghost output = { found_text };

    fn fmt<W: fmt::Write>(&self, f: &mut fmt::Formatter<W>) -> fmt::Result {
        match self {
            Found::Word(word) => write!(f, "{word}"),
            Found::LineEnd => write!(f, "the end of the line"),
            Found::OtherBytes => write!(f, "other bytes"),
            Found::LongerLine => write!(f, "a longer one"),
        }
    }
}

/// Why a line says nothing that is understood.
#[derive(Debug, Drop)]
pub struct Mismatch {
    pub expected: Expected,
    pub found: Found,
}

impl Mismatch {
    /// Of a line with more bytes than the longest has.
    pub fn too_long() -> Mismatch
        ensures { result ≡ too_long }
    {
        Mismatch {
            expected: Expected::ShortLine,
            found: Found::LongerLine,
        }
    }

    /// Of a line that is no text.
    pub fn not_text() -> Mismatch
        ensures { result ≡ not_text }
    {
        Mismatch {
            expected: Expected::Text,
            found: Found::OtherBytes,
        }
    }
}

impl fmt::Display for Mismatch {
    ghost output = { mismatch_text };

    fn fmt<W: fmt::Write>(&self, f: &mut fmt::Formatter<W>) -> fmt::Result {
        let Mismatch { expected, found } = self;
        write!(f, "expected {expected}, found {found}")
    }
}
