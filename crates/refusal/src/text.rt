//! Refusals as they are printed.
ghost use Rattle.std.specs.Prelude.{Some};
ghost use Rattle.refusal.specs.Text.{number_and_place};

use crate::Refusal;
use std::error::Error;
use std::fmt;

impl fmt::Display for Refusal {
    ghost output = { λ r. Some (number_and_place r) };

    fn fmt<W: fmt::Write>(&self, f: &mut fmt::Formatter<W>) -> fmt::Result {
        let number = self.number();
        let place = self.place();
        write!(f, "{number} {place}")
    }
}

impl Error for Refusal {}
