//! A kind of value of one's own: how hot the strip was at most.
ghost use Rattle.calling.specs.Hottest.{hottest_of, hotter, hottest_laws};

use joining::Joining;

/// The highest of some temperatures, in degrees Celsius. Of none it is 0.
#[derive(Clone, Copy, PartialEq, Eq, Debug)]
pub struct Hottest {
    pub degrees: u16,
}

impl Joining for Hottest {
    ghost neutral = { hottest_of 0 };

    ghost joined = { hotter };

    ghost laws = { hottest_laws };

    fn neutral() -> Hottest {
        Hottest { degrees: 0 }
    }

    fn join(self, other: Hottest) -> Hottest {
        Hottest {
            degrees: self.degrees.max(other.degrees),
        }
    }
}
