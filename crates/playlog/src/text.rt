//! Outcomes as they are printed.
ghost use Rattle.std.specs.Prelude.{Some};
ghost use Rattle.playlog.specs.Text.{outcome_text};

use crate::outcomes::Outcome;
use std::fmt;

impl fmt::Display for Outcome {
    ghost output = { λ o. Some (outcome_text o) };

    fn fmt<W: fmt::Write>(&self, f: &mut fmt::Formatter<W>) -> fmt::Result {
        let Outcome {
            number,
            verb,
            caller,
            result,
        } = *self;
        write!(f, "{number} {verb} {caller} ")?;
        match result {
            Ok(answer) => write!(f, "{answer}"),
            Err(refusal) => write!(f, "no {}", refusal.number()),
        }
    }
}
