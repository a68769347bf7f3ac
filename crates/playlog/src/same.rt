//! Answers compared.
ghost use Rattle.std.specs.Prelude.{◌≡◌, Decides};

use calls::Answer;
use joining::CoilRecord;
use refusal::Refusal;

/// Whether two lists of answers are the same.
pub fn same_answers(
    left: &[Result<Answer<CoilRecord>, Refusal>],
    right: &[Result<Answer<CoilRecord>, Refusal>],
) -> bool
    ensures { Decides result (left.now ≡ right.now) }
{
    left == right
}
