//! Lines that say a step, and what is printed of lines that say none.
use calls::{Action, Call, Mode};
use std::alloc::Global;
use std::test::Fail;
use steptext::{step_of, steps_of};

#[test]
fn a_register_is_read(rt: HostRuntime) -> Result<(), Fail> {
    let step = step_of(rt.alloc(), "register 0 63 WO")?;
    let action = Action::Register {
        other: 63,
        mode: Mode::WaitOnly,
    };
    assert!(rt; step.is_ok_and(|step| step == Call { caller: 0, action }));
    Ok(())
}

/// What is printed of a line that says no step.
fn printed(heap: Global, line: &str) -> Result<String, Fail> {
    match step_of(heap, line)? {
        Ok(_) => Ok(String::new(heap)),
        Err(mismatch) => Ok(mismatch.to_string(heap)?),
    }
}

#[test]
fn the_first_wrong_word_is_told(rt: HostRuntime) -> Result<(), Fail> {
    let verb = printed(rt.alloc(), "sing\t 0")?;
    assert_eq!(rt;
        verb.as_str(),
        "expected register, signal, wait, drop, send, result or view, found \"sing\\t\""
    );
    let station = printed(rt.alloc(), "signal 256")?;
    assert_eq!(rt;
        station.as_str(),
        "expected a station, 0 to 255, found \"256\""
    );
    let marks = printed(rt.alloc(), "send 0 1 -32768")?;
    assert_eq!(rt;
        marks.as_str(),
        "expected marks, 0 to 65535, found the end of the line"
    );
    let end = printed(rt.alloc(), "view 1 ")?;
    assert_eq!(rt; end.as_str(), "expected the end of the line, found \"\"");
    Ok(())
}

#[test]
fn the_first_wrong_line_is_told(rt: HostRuntime) -> Result<(), Fail> {
    let heap = rt.alloc();
    let good = steps_of(heap, &["view 1", "", "# of two", "signal 0"])?;
    assert!(rt; good.is_ok_and(|steps| steps.len() == 2));
    let lines = ["view 1", " ", "register 0 1 S", "x"];
    assert!(rt; steps_of(heap, &lines)?.is_err_and(|bad| bad.number == 3));
    Ok(())
}
