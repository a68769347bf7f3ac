//! A text's lines, read one at a time from any reader, in bounded memory.

#![tactic(auto)]

mod bytes;
mod reading;
mod silence;

pub use reading::{Line, read_line, skip_line};
pub use silence::says_nothing;

/// Bytes of the longest line, its end not counted.
pub const MAX_LINE_LEN: usize = 255;
