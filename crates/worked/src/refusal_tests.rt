//! Each refusal in a plain sentence.
use refusal::Refusal;
use std::test::Fail;

const SENTENCES: [(Refusal, &str); 19] = [
    (
        Refusal::Limit { limit: 65 },
        "the limit is 1 to 64 stations, and not 65",
    ),
    (
        Refusal::TooFewCells { cells: 5 },
        "5 cells are too few: each station below the limit needs one for each kept pass",
    ),
    (
        Refusal::LogSize,
        "the log is too long, or it is not whole blocks, or its steps have no room",
    ),
    (
        Refusal::BlockCheck { block: 2 },
        "the check of block 2 is wrong: a byte of the block was altered",
    ),
    (
        Refusal::BlockNumber { block: 2 },
        "block 2 has another number: a block is missing or out of order",
    ),
    (
        Refusal::BlockCount { block: 2 },
        "block 2 counts too many records, or none, or too few before a further block",
    ),
    (
        Refusal::NotZero { block: 2 },
        "block 2 has a byte that is not zero outside its records",
    ),
    (Refusal::BadRecord { at: 34 }, "record 34 says no step"),
    (
        Refusal::NoStation { station: 64 },
        "there is no station 64: stations have the numbers below 64",
    ),
    (Refusal::NotMember { caller: 7 }, "station 7 is no member"),
    (
        Refusal::AlreadyMember { other: 7 },
        "station 7 is a member already",
    ),
    (
        Refusal::ModeDenied { caller: 7 },
        "station 7 is in a mode that does not allow this call",
    ),
    (
        Refusal::OutOfTurn { caller: 7 },
        "it is not the turn of station 7: one in mode SW signs, then waits, then signs",
    ),
    (
        Refusal::PastLastPass { caller: 7 },
        "station 7 has come to the last pass, 999999",
    ),
    (
        Refusal::LastPassKept { first: 999_999 },
        "there is no pass to move on to: the first kept pass is 999999, the last one",
    ),
    (
        Refusal::NotSigned { caller: 0 },
        "not every signaler has signed the pass that station 0 would observe",
    ),
    (
        Refusal::NothingObserved { caller: 7 },
        "station 7 has observed no pass yet: it has to wait first",
    ),
    (
        Refusal::NoCell { station: 7 },
        "station 7 cannot send: only the stations below the limit have cells",
    ),
    (
        Refusal::NotKept { pass: 3 },
        "the total of pass 3 is not kept",
    ),
];

#[test]
fn each_number_has_its_sentence(rt: HostRuntime) -> Result<(), Fail> {
    let sentences = SENTENCES;
    for (refusal, words) in &sentences {
        let text = refusal.sentence().to_string(rt.alloc())?;
        assert!(rt; text.as_str() == *words, "{text}");
    }
    Ok(())
}
