//! Requests and what they are answered, as they are printed.
ghost use Rattle.std.specs.Prelude.{◌≡◌, Some};
ghost use Rattle.refusal.specs.declared.limits.TheConstants.{STATIONS};
ghost use Rattle.desk.specs.Texts.{asked_text, yes_text, stations_text, reply_text, told_text};

use crate::measured::Measured;
use crate::replies::{Reply, Told};
use crate::requests::Request;
use refusal::limits::STATIONS;
use std::fmt;

/// A request by its verb and the stations that ask or are asked about.
#[derive(Clone, Copy)]
struct Asked(Request);

/// A set of stations, bit k being station k's.
#[derive(Clone, Copy)]
struct Stations(u64);

impl fmt::Display for Asked {
    ghost output = { λ a. Some (asked_text a.0) };

    fn fmt<W: fmt::Write>(&self, f: &mut fmt::Formatter<W>) -> fmt::Result {
        match self.0 {
            Request::Call(call) => {
                let verb = call.action.verb();
                let caller = call.caller;
                write!(f, "{verb} {caller}")
            }
            Request::Holders { waiter } => write!(f, "holders {waiter}"),
            Request::Compare { first, second } => write!(f, "compare {first} {second}"),
        }
    }
}

impl fmt::Display for Stations {
    ghost output = { λ s. Some (stations_text s.0 STATIONS) };

    #[tactic(auto, unfolding(crate::specs::Texts::stations_text))]
    fn fmt<W: fmt::Write>(&self, f: &mut fmt::Formatter<W>) -> fmt::Result {
        for k in 0..STATIONS {
            if (self.0 >> k) % 2 == 1 {
                write!(f, " {k}")?;
            }
        }
        Ok(())
    }
}

/// Yes or no.
fn yes(is_so: bool) -> &'static str
    ensures { result.now ≡ yes_text is_so }
{
    if is_so { "yes" } else { "no" }
}

impl<V: Measured> fmt::Display for Reply<V> {
    ghost output = { λ r. Some (reply_text V.text r) };

    fn fmt<W: fmt::Write>(&self, f: &mut fmt::Formatter<W>) -> fmt::Result {
        match self {
            Reply::Answered(answer) => write!(f, "{answer}"),
            Reply::Holders { set, count } => write!(f, "ok {count}{}", Stations(*set)),
            Reply::Order { forward, backward } => {
                let forward = yes(*forward);
                let backward = yes(*backward);
                write!(f, "ok {forward} {backward}")
            }
        }
    }
}

impl<V: Measured> fmt::Display for Told<V> {
    ghost output = { λ t. Some (told_text V.text t) };

    fn fmt<W: fmt::Write>(&self, f: &mut fmt::Formatter<W>) -> fmt::Result {
        let number = self.number;
        let asked = Asked(self.request);
        write!(f, "{number} {asked} ")?;
        match &self.result {
            Ok(reply) => write!(f, "{reply}"),
            Err(refusal) => {
                let sentence = refusal.sentence();
                write!(f, "no {refusal}: {sentence}")
            }
        }
    }
}
