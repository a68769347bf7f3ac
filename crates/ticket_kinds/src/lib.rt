//! The kinds of ticket, as values and as types.

#![tactic(auto)]

ghost use Rattle.std.specs.Prelude.{◌≡◌, true, refl};
ghost use Rattle.calls.specs.declared.Verb.TheVariants.{Signal, Wait, Send, Result as AskResult};
ghost use Rattle.ticket_kinds.specs.declared.Kind.{Kind as AnyKind};
ghost use Rattle.ticket_kinds.specs.declared.Kind.TheVariants as a_kind;
ghost use Rattle.ticket_kinds.specs.Kinds.{first_kind, newcomer_kind, offers, after_signing, after_waiting};

use calls::Mode;

/// What a ticket says of its station.
#[derive(Clone, Copy, Debug, PartialEq, Eq)]
pub enum Kind {
    /// It signs and waits and has observed all that it signed: its turn is to send and sign.
    Open,
    /// It signs and waits and has signed a pass that it has not observed: its turn is to wait.
    Signed,
    /// It only signs.
    SignOnly,
    /// It only waits.
    WaitOnly,
}

impl Kind {
    /// The kind of the first member's ticket.
    pub fn first(mode: Mode) -> Kind
        ensures { result ≡ first_kind mode }
    {
        match mode {
            Mode::SignalWait => Kind::Open,
            Mode::SignalOnly => Kind::SignOnly,
            Mode::WaitOnly => Kind::WaitOnly,
        }
    }

    /// The kind of a newcomer's ticket, brought in on one of this kind.
    pub fn newcomer(self, mode: Mode) -> Kind
        ensures { result ≡ newcomer_kind self mode }
    {
        match (self, mode) {
            (Kind::Signed, Mode::SignalWait) => Kind::Signed,
            _ => Kind::first(mode),
        }
    }
}

/// A kind as a type.
pub trait TicketKind {
    ghost kind: { AnyKind };

    /// The kind that the type stands for.
    fn kind() -> Kind
        ensures { result ≡ kind };
}

/// A kind whose tickets may sign.
pub trait MaySign: TicketKind {
    /// The kind of the ticket after an accepted call.
    type Next: TicketKind;

    ghost offered: { offers Self.kind Signal ≡ true };

    ghost next: { Self.Next.kind ≡ after_signing Self.kind };
}

/// A kind whose tickets may wait.
pub trait MayWait: TicketKind {
    /// The kind of the ticket after an accepted call.
    type Next: TicketKind;

    ghost offered: { offers Self.kind Wait ≡ true };

    ghost next: { Self.Next.kind ≡ after_waiting Self.kind };
}

/// A kind whose tickets may send.
pub trait MaySend: TicketKind {
    ghost offered: { offers Self.kind Send ≡ true };
}

/// A kind whose tickets may ask for the result.
pub trait MayRead: TicketKind {
    ghost offered: { offers Self.kind AskResult ≡ true };
}

/// The type that stands for `Kind::Open`.
pub struct Open;

/// The type that stands for `Kind::Signed`.
pub struct Signed;

/// The type that stands for `Kind::SignOnly`.
pub struct SignOnly;

/// The type that stands for `Kind::WaitOnly`.
pub struct WaitOnly;

impl TicketKind for Open {
    ghost kind = { a_kind.Open };

    fn kind() -> Kind {
        Kind::Open
    }
}

impl TicketKind for Signed {
    ghost kind = { a_kind.Signed };

    fn kind() -> Kind {
        Kind::Signed
    }
}

impl TicketKind for SignOnly {
    ghost kind = { a_kind.SignOnly };

    fn kind() -> Kind {
        Kind::SignOnly
    }
}

impl TicketKind for WaitOnly {
    ghost kind = { a_kind.WaitOnly };

    fn kind() -> Kind {
        Kind::WaitOnly
    }
}

impl MaySign for Open {
    type Next = Signed;

    ghost offered = { refl };

    ghost next = { refl };
}

impl MaySign for SignOnly {
    type Next = SignOnly;

    ghost offered = { refl };

    ghost next = { refl };
}

impl MayWait for Signed {
    type Next = Open;

    ghost offered = { refl };

    ghost next = { refl };
}

impl MayWait for WaitOnly {
    type Next = WaitOnly;

    ghost offered = { refl };

    ghost next = { refl };
}

impl MaySend for Open {
    ghost offered = { refl };
}

impl MayRead for Open {
    ghost offered = { refl };
}

impl MayRead for Signed {
    ghost offered = { refl };
}
