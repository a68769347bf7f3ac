//! A log played on the board, on both accumulators, compared, and told in lines of text.

#![tactic(auto)]

mod outcomes;
mod play;
mod played_log;
mod report_text;
mod same;
mod step_calls;
mod text;

pub use outcomes::{Outcome, outcomes_of};
pub use play::{play_eagerly, play_lazily};
pub use played_log::{PlayedLog, play_log};
pub use report_text::{lines, report};
pub use same::same_answers;
pub use step_calls::{call_of, calls_of};
