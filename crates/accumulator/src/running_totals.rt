//! The accumulator that has one running total for each kept pass.
ghost use Rattle.std.specs.Prelude.{◌≡◌, [], Ok};
ghost use Rattle.refusal.specs.declared.limits.TheConstants.{STATIONS};
ghost use Rattle.refusal.specs.Rules.{verdict};
ghost use Rattle.accumulator.specs.Window.{eager_rules};
ghost use Rattle.accumulator.specs.Meaning.{new_meaning};
ghost use Rattle.accumulator.specs.Eager.{running_total};

use crate::slots::Slots;
use crate::window::{Slot, Window, try_limit};
use crate::windowed::Windowed;
use crate::{Accumulator, KEPT};
use joining::Joining;
use refusal::Refusal;

/// A running total for each slot.
#[derive(Drop)]
pub struct Totals<V> {
    totals: [V; KEPT],
}

/// The total of a pass is in its slot.
pub type Eager<V> = Windowed<Totals<V>>;

impl<V: Joining + Copy> Eager<V> {
    /// Whether `new` can be called: it refuses a limit that is not 1 to 64.
    pub fn trial(limit: usize) -> Result<(), Refusal>
        ensures { result ≡ verdict (eager_rules limit) }
    {
        try_limit(limit)
    }

    /// An accumulator for the stations below the limit: its first kept pass is 0, and its totals
    /// are neutral.
    pub fn new(limit: usize) -> Eager<V>
        requires { verdict (eager_rules limit) ≡ Ok tt }
        ensures { ⟦<Eager<V> as Accumulator>⟧.meaning result ≡ new_meaning V.Joining limit }
    {
        Windowed {
            window: Window::new(limit),
            slots: Totals {
                totals: [V::neutral(); KEPT],
            },
        }
    }
}

impl<V: Joining + Copy> Slots for Totals<V> {
    type Value = V;

    ghost places = { λ _. STATIONS };

    ghost total = { λ s _. running_total V.Joining.neutral s };

    ghost cells = { λ _. record { names = []; values = [] } };

    ghost join_change = { λ _ _ _ cells. cells };

    ghost wipe_change = { λ _ _ cells. cells };

    fn join(&mut self, _station: u8, slot: Slot, value: V) {
        self.totals[slot.index] = self.totals[slot.index].join(value);
    }

    fn total(&self, _limit: u8, slot: Slot) -> V {
        self.totals[slot.index]
    }

    fn wipe(&mut self, _limit: u8, slot: Slot) {
        self.totals[slot.index] = V::neutral();
    }
}
