//! Steps read from lines of text, in the words in which they are printed, and printed as lines.

#![tactic(auto)]

mod expectations;
mod found;
mod line;
mod lines;
mod places;
mod printed;
mod streams;
mod words;

pub use expectations::Expected;
pub use found::{Found, Mismatch, Word};
pub use line::{step_of, step_placed};
pub use lines::{BadLine, steps_of};
pub use places::{Misplaced, at_place, ended_at, with_found, word_at, words_of};
pub use printed::{text_of, text_of_log};
pub use streams::{MAX_STEPS, NoLog, log_of_lines, read_steps};
pub use words::{mode, station};
