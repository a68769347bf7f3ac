//! A ticket: a station's number that is moved. None can be copied, made elsewhere or let go.
ghost use Rattle.std.specs.Prelude.{◌≡◌};
ghost use Rattle.ticket.specs.Calls.{without_ticket, IsTicket, ComesBack};

use refusal::Refusal;
use std::marker::{Model, PhantomData};
use ticket_kinds::{Kind, Open, SignOnly, Signed, TicketKind, WaitOnly};

/// A ticket of a kind, for a station: a plain number, as the kind is no data. It names no board.
#[repr(transparent)]
pub struct Ticket<K: TicketKind> {
    station: u8,
    kind: PhantomData<K>,
}

impl<K: TicketKind> Model for Ticket<K> {
    ghost use Rattle.std.specs.Prelude.{ℕ};

    ghost Value = { ℕ };

    ghost view = { λ t. t.station };
}

/// A ticket of any kind, as it is handed to who enters.
pub enum AnyTicket {
    Open(Ticket<Open>),
    Signed(Ticket<Signed>),
    SignOnly(Ticket<SignOnly>),
    WaitOnly(Ticket<WaitOnly>),
}

impl<K: TicketKind> Ticket<K> {
    /// The ticket of a station.
    pub(crate) fn new(station: u8) -> Ticket<K>
        ensures { result ≡ station }
    {
        Ticket {
            station,
            kind: PhantomData,
        }
    }

    /// The station that it is for.
    pub fn station(&self) -> u8
        ensures { result ≡ self.now }
    {
        self.station
    }

    /// Its answer with the station's next ticket, or its refusal with the ticket itself.
    pub(crate) fn hand_over<N: TicketKind>(
        self,
        answer: Result<u32, Refusal>,
    ) -> Result<(u32, Ticket<N>), (Refusal, Ticket<K>)>
        ensures answer { without_ticket result ≡ answer }
        ensures ticket { ComesBack self result }
    {
        match answer {
            Ok(count) => {
                let next = Ticket::new(self.station);
                self.end();
                Ok((count, next))
            }
            Err(refusal) => Err((refusal, self)),
        }
    }

    /// Takes it out of use.
    pub(crate) fn end(self) {
        let Ticket {
            station: _,
            kind: _,
        } = self;
    }
}

impl AnyTicket {
    /// The ticket of a kind for a station.
    pub(crate) fn new(kind: Kind, station: u8) -> AnyTicket
        ensures { IsTicket kind station result }
    {
        match kind {
            Kind::Open => AnyTicket::Open(Ticket::new(station)),
            Kind::Signed => AnyTicket::Signed(Ticket::new(station)),
            Kind::SignOnly => AnyTicket::SignOnly(Ticket::new(station)),
            Kind::WaitOnly => AnyTicket::WaitOnly(Ticket::new(station)),
        }
    }
}
