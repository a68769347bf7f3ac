//! Commutative monoids: values that are joined in any order, five kinds of them, and one fold.

#![tactic(auto)]

ghost use Rattle.std.specs.Prelude.{◌≡◌};
ghost use Rattle.joining.specs.Laws.{CommutativeMonoid};

mod bit_rules;
mod fold;
mod joins;
mod kinds;
mod text;
mod values;

pub use bit_rules::{Bitwise, Exclusive, Inclusive};
pub use fold::{join_every, joining_laws};
pub use kinds::{Bits, CoilRecord, Deviation, Extremes, Length, Marks, Toggles};

/// A commutative monoid: a neutral value, and a join that keeps the three laws.
pub trait Joining: Sized {
    ghost neutral: { Self };

    ghost joined: { Self → Self → Self };

    /// The value that changes nothing it is joined to.
    fn neutral() -> Self
        ensures { result ≡ neutral };

    /// The two values as one.
    fn join(self, other: Self) -> Self
        ensures { result ≡ joined self other };

    ghost laws: { CommutativeMonoid neutral joined };
}
