//! The rules by which sets of bits are joined.
ghost use Rattle.std.specs.Prelude.{◌≡◌, ℕ, bit_or, bit_xor};
ghost use Rattle.joining.specs.Laws.{CommutativeMonoid};
ghost use Rattle.joining.specs.BitLaws.{or_laws, xor_laws};

/// An operation bit by bit, under which numbers are a commutative monoid of which 0 is the
/// neutral value.
pub trait Bitwise {
    ghost operation: { ℕ → ℕ → ℕ };

    /// The bits of two sets as those of one.
    fn operation(x: u16, y: u16) -> u16
        ensures { result ≡ operation x y };

    ghost laws: { CommutativeMonoid 0 operation };
}

/// Inclusive or.
pub struct Inclusive;

impl Bitwise for Inclusive {
    ghost operation = { bit_or };

    ghost laws = { or_laws };

    fn operation(x: u16, y: u16) -> u16 {
        x | y
    }
}

/// Exclusive or.
pub struct Exclusive;

impl Bitwise for Exclusive {
    ghost operation = { bit_xor };

    ghost laws = { xor_laws };

    fn operation(x: u16, y: u16) -> u16 {
        x ^ y
    }
}
