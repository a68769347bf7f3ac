//! The rules of a phaser with an accumulator, and the law of the record over every history of its
//! calls.

#![tactic(auto)]

ghost use Rattle.std.specs.Prelude.{ℕ};
ghost use Rattle.refusal.specs.Rules.{TriedUpward};
ghost use Rattle.calls.specs.declared.views.View.{View};
ghost use Rattle.calls.specs.declared.actions.Action.{Action};
ghost use Rattle.accumulator.specs.Window.{eager_rules, lazy_rules, add_rules};
ghost use Rattle.phaser.specs.Accounts.{AccountsOrderFree};
ghost use Rattle.phaser.specs.Agreement.{RulesAgree};
ghost use Rattle.phaser.specs.Law.{RecordsGoOn, RecordsAlike};
ghost use Rattle.phaser.specs.Places.{PlacesDue};
ghost use Rattle.phaser.specs.State.{State};
ghost use Rattle.phaser.specs.Steps.{rules};

use joining::Joining;

/// A refused call tells the place that its number asks for, and the rules are tried upward: the
/// numbers of each list of rules never fall.
pub fn refusals_in_order<V: Joining>()
    ensures places { PlacesDue V.Joining }
    ensures calls { (s : State V) (j : ℕ) (v : View) (x : Action V) → TriedUpward (rules s j v x) }
    ensures makings { (limit cells : ℕ) → TriedUpward (eager_rules limit) × TriedUpward (lazy_rules limit cells) }
    ensures adds { (limit first station pass : ℕ) → TriedUpward (add_rules limit first station pass) }
{}

/// A call is accepted just where its rule in the literature applies within the limits, with the
/// same answer and board after, on any seats and totals of a board's number where each view has
/// the counts of its mode; a refusal leaves the board as it is.
pub fn rules_agree<V: Joining>()
    ensures { RulesAgree V.Joining }
{}

/// What calls are answered by the rules goes on a board's record, whoever makes them, and the law
/// holds of the whole. Two boards made alike on which the same is accepted, each station's calls
/// in the same order, have answered alike and are the same.
pub fn records_go_on<V: Joining>()
    ensures go_on { RecordsGoOn V.Joining }
    ensures alike { RecordsAlike V.Joining }
{}

/// An account of who sent what for a pass hangs on no order, where the sends of different
/// stations commute.
pub fn accounts_order_free<V: Joining, A>()
    ensures { AccountsOrderFree V.Joining A }
{}
