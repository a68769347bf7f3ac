//! What single words say.
ghost use Rattle.std.specs.Prelude.{◌≡◌};
ghost use Rattle.steptext.specs.Words.{word_number, word_deviation, word_verb, word_mode};
ghost use Rattle.steptext.specs.declared.expectations.Expected.TheVariants.{Station, Length, Marks};

use crate::expectations::Expected;
use calls::{Mode, Verb};

/// A station's number.
pub fn station(word: &str) -> Result<u8, Expected>
    ensures { result ≡ word_number 8 Station word.now }
{
    word.parse().map_err(|_| Expected::Station)
}

/// The length run.
pub(crate) fn length(word: &str) -> Result<u32, Expected>
    ensures { result ≡ word_number 32 Length word.now }
{
    word.parse().map_err(|_| Expected::Length)
}

/// The deviation.
pub(crate) fn deviation(word: &str) -> Result<i16, Expected>
    ensures { result ≡ word_deviation word.now }
{
    word.parse().map_err(|_| Expected::Deviation)
}

/// The defect marks.
pub(crate) fn marks(word: &str) -> Result<u16, Expected>
    ensures { result ≡ word_number 16 Marks word.now }
{
    word.parse().map_err(|_| Expected::Marks)
}

/// The verb that is printed so.
pub(crate) fn verb(word: &str) -> Option<Verb>
    ensures { result ≡ word_verb word.now }
{
    match word {
        "register" => Some(Verb::Register),
        "signal" => Some(Verb::Signal),
        "wait" => Some(Verb::Wait),
        "drop" => Some(Verb::Drop),
        "send" => Some(Verb::Send),
        "result" => Some(Verb::Result),
        "view" => Some(Verb::View),
        _ => None,
    }
}

/// The mode that is printed so.
pub fn mode(word: &str) -> Option<Mode>
    ensures { result ≡ word_mode word.now }
{
    match word {
        "SW" => Some(Mode::SignalWait),
        "SO" => Some(Mode::SignalOnly),
        "WO" => Some(Mode::WaitOnly),
        _ => None,
    }
}
