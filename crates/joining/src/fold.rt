//! The joining of many values: the laws that any kind keeps, and the fold over cells of a slice.
ghost use Rattle.std.specs.Prelude.{◌≡◌};
ghost use Rattle.joining.specs.Lists.{joining_of, JoiningLaws};
ghost use Rattle.joining.specs.Every.{cells_in_steps};

use crate::Joining;

/// The laws of the joining of a list, for every kind.
pub fn joining_laws<V: Joining>()
    ensures { JoiningLaws V.Joining }
{}

/// Joins the cells `start`, `start + step`, `start + 2 * step` and so on, from the neutral value.
/// A step of 0 counts as 1.
pub fn join_every<V: Joining + Copy>(cells: &[V], start: usize, step: usize) -> V
    ensures { result ≡ joining_of V.Joining (cells_in_steps start step cells.now) }
{
    // By index, since the library's `skip` and `step_by` over a slice go over every cell that they
    // leave out.
    let mut total = V::neutral();
    for i in (start..cells.len()).step_by(step.max(1)) {
        total = total.join(cells[i]);
    }
    total
}
