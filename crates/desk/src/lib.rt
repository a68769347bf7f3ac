//! Requests that lines of text make of a board, and what they are answered in lines of text.

#![tactic(auto)]

mod answers;
mod hearing;
mod lines;
mod measured;
mod replies;
mod requests;
mod sittings;
mod text;

pub use answers::answer;
pub use hearing::{Heard, heard_of};
pub use lines::request_of;
pub use measured::Measured;
pub use replies::{Reply, Told};
pub use requests::Request;
pub use sittings::{Broken, answer_lines};
