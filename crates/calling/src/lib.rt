//! How the board is called: one pass of a coil with two gauges, by number and by tickets; a kind
//! of value of one's own; a fact of one's own on top of the law of the record; and a board called in
//! several ways, with the law of all of it.

#![tactic(auto)]

mod by_number;
mod chained;
mod on_tickets;
mod own_fact;
mod own_kind;

pub use by_number::{board_for, one_pass, one_pass_eagerly, one_pass_lazily};
pub use chained::{Reply, in_two_orders, sign, work_from_new, work_on};
pub use on_tickets::one_pass_on_tickets;
pub use own_fact::play_shift;
pub use own_kind::Hottest;
