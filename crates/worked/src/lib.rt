//! Examples over all layers: shown from the definitions, and run as tests.

#![tactic(auto)]

ghost use Rattle.worked.specs.Examples.{WorkedExamples};

#[cfg(test)]
mod accumulator_tests;
#[cfg(test)]
mod board_tests;
#[cfg(test)]
mod calling_tests;
#[cfg(test)]
mod joining_tests;
#[cfg(test)]
mod playlog_tests;
#[cfg(test)]
mod refusal_tests;
#[cfg(test)]
mod shiftlog_tests;
#[cfg(test)]
mod steptext_tests;
#[cfg(test)]
mod ticket_tests;

/// The worked examples hold.
pub fn examples_hold()
    ensures { WorkedExamples }
{}
