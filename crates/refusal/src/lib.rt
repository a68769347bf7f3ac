//! Every refusal of the project: its number, its layer and its place.

#![tactic(auto)]

ghost use Rattle.std.specs.Prelude.{◌≡◌, ◌≢◌, ℕ};
ghost use Rattle.refusal.specs.Refusals.{number, layer, layer_of_number, place};

pub mod limits;
mod sentences;
pub mod text;

pub use sentences::Sentence;

/// The part of the system that refuses.
#[derive(Clone, Copy, Debug, PartialEq, Eq)]
pub enum Layer {
    Maker,
    Log,
    Record,
    Board,
    Accumulator,
}

/// Why a call, a making or a log is refused. Each case holds its place.
#[derive(Clone, Copy, Debug, PartialEq, Eq)]
pub enum Refusal {
    /// 1: the limit is not 1 to 64.
    Limit { limit: usize },
    /// 2: fewer cells are given than the accumulator needs.
    TooFewCells { cells: usize },
    /// 3: the log is too long or is not whole blocks, or the writer's steps do not fit.
    LogSize,
    /// 4: a block's check is wrong.
    BlockCheck { block: usize },
    /// 5: a block's number is not its place.
    BlockNumber { block: usize },
    /// 6: a block's count breaks its rule.
    BlockCount { block: usize },
    /// 7: a byte that must be zero, outside the counted records, is not.
    NotZero { block: usize },
    /// 8: a counted record says no step. Records are counted from 1 through the whole log.
    BadRecord { at: usize },
    /// 9: there is no station of that number.
    NoStation { station: u8 },
    /// 10: the caller is no member.
    NotMember { caller: u8 },
    /// 11: the newcomer is a member already.
    AlreadyMember { other: u8 },
    /// 12: the caller's mode is denied this call, or this mode for a newcomer.
    ModeDenied { caller: u8 },
    /// 13: the caller signs or sends where it must wait first, or waits where it must sign first.
    OutOfTurn { caller: u8 },
    /// 14, from a call: it would need a pass above the last one.
    PastLastPass { caller: u8 },
    /// 14, from a move on: the first kept pass is the last one already.
    LastPassKept { first: u32 },
    /// 15: some signaler has not signed the pass that a wait would observe.
    NotSigned { caller: u8 },
    /// 16: a result is asked for before any pass is observed.
    NothingObserved { caller: u8 },
    /// 17: the station has no cell under the limit.
    NoCell { station: u8 },
    /// 18: the pass is not kept.
    NotKept { pass: u32 },
}

impl Refusal {
    ghost use Rattle.refusal.specs.declared.Refusal.TheVariants.{LastPassKept};

    /// The number by which the refusal is printed.
    pub fn number(&self) -> u8
        ensures { result ≡ number self.now }
    {
        match *self {
            Refusal::Limit { .. } => 1,
            Refusal::TooFewCells { .. } => 2,
            Refusal::LogSize => 3,
            Refusal::BlockCheck { .. } => 4,
            Refusal::BlockNumber { .. } => 5,
            Refusal::BlockCount { .. } => 6,
            Refusal::NotZero { .. } => 7,
            Refusal::BadRecord { .. } => 8,
            Refusal::NoStation { .. } => 9,
            Refusal::NotMember { .. } => 10,
            Refusal::AlreadyMember { .. } => 11,
            Refusal::ModeDenied { .. } => 12,
            Refusal::OutOfTurn { .. } => 13,
            Refusal::PastLastPass { .. } | Refusal::LastPassKept { .. } => 14,
            Refusal::NotSigned { .. } => 15,
            Refusal::NothingObserved { .. } => 16,
            Refusal::NoCell { .. } => 17,
            Refusal::NotKept { .. } => 18,
        }
    }

    /// The layer that refuses, which follows from the number, but for the 14 of a move on: that
    /// is the accumulator's.
    pub fn layer(&self) -> Layer
        ensures layer { result ≡ layer self.now }
        ensures follows { ((first : ℕ) → self.now ≢ LastPassKept first) → result ≡ layer_of_number (number self.now) }
    {
        match *self {
            Refusal::Limit { .. } | Refusal::TooFewCells { .. } => Layer::Maker,
            Refusal::LogSize
            | Refusal::BlockCheck { .. }
            | Refusal::BlockNumber { .. }
            | Refusal::BlockCount { .. }
            | Refusal::NotZero { .. } => Layer::Log,
            Refusal::BadRecord { .. } => Layer::Record,
            Refusal::NoStation { .. }
            | Refusal::NotMember { .. }
            | Refusal::AlreadyMember { .. }
            | Refusal::ModeDenied { .. }
            | Refusal::OutOfTurn { .. }
            | Refusal::PastLastPass { .. }
            | Refusal::NotSigned { .. }
            | Refusal::NothingObserved { .. } => Layer::Board,
            Refusal::LastPassKept { .. } | Refusal::NoCell { .. } | Refusal::NotKept { .. } =>
                Layer::Accumulator,
        }
    }

    /// What is refused: the limit, the count of cells, the block, the record, the station or the
    /// pass.
    pub fn place(&self) -> usize
        ensures { result ≡ place self.now }
    {
        match *self {
            Refusal::Limit { limit } => limit,
            Refusal::TooFewCells { cells } => cells,
            Refusal::LogSize => 0,
            Refusal::BlockCheck { block }
            | Refusal::BlockNumber { block }
            | Refusal::BlockCount { block }
            | Refusal::NotZero { block } => block,
            Refusal::BadRecord { at } => at,
            Refusal::NotMember { caller }
            | Refusal::ModeDenied { caller }
            | Refusal::OutOfTurn { caller }
            | Refusal::PastLastPass { caller }
            | Refusal::NotSigned { caller }
            | Refusal::NothingObserved { caller } => caller as usize,
            Refusal::AlreadyMember { other } => other as usize,
            Refusal::NoStation { station } | Refusal::NoCell { station } => station as usize,
            Refusal::LastPassKept { first } => first as usize,
            Refusal::NotKept { pass } => pass as usize,
        }
    }
}
