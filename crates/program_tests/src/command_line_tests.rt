mod answers;

use answers::{Answer, Run, are_answered, are_answered_after, expect, expect_refused};
use command_line::UsageKind;
use std::alloc::{AllocError, Global};
use std::test::Fail;

/// A run of one file, with the usual values.
const USUAL: Run<'static> = Run {
    files: &["a.o"],
    entry: "main",
    fuel: 1_000_000,
    workers: 0,
};

#[test]
fn files_stand_before_between_and_after_options(rt: HostRuntime) -> Result<(), Fail> {
    let run = Run {
        files: &["a.o", "b.o", "c.o", "d.o"],
        entry: "start",
        fuel: 7,
        workers: 3,
    };
    let line = "orc run a.o --fuel 7 b.o c.o --entry start --workers 3 d.o";
    expect(&rt, rt.alloc(), &[(line, Answer::Run(run))])
}

#[test]
fn options_have_usual_values(rt: HostRuntime) -> Result<(), Fail> {
    expect(&rt, rt.alloc(), &[("orc run a.o", Answer::Run(USUAL))])
}

#[test]
fn every_word_after_two_dashes_is_a_file(rt: HostRuntime) -> Result<(), Fail> {
    let run = Run {
        files: &["a.o", "--entry", "-x", "--", "--help"],
        entry: "main",
        fuel: 9,
        workers: 0,
    };
    let line = "orc run --fuel 9 -- a.o --entry -x -- --help";
    expect(&rt, rt.alloc(), &[(line, Answer::Run(run))])
}

#[test]
fn a_dash_is_a_file_or_a_value(rt: HostRuntime) -> Result<(), Fail> {
    let run = Run {
        files: &["-", "-"],
        entry: "-",
        fuel: 1_000_000,
        workers: 0,
    };
    expect(
        &rt,
        rt.alloc(),
        &[("orc run - --entry - -", Answer::Run(run))],
    )
}

#[test]
fn a_value_after_equals_may_be_anything(rt: HostRuntime) -> Result<(), Fail> {
    let run = Run {
        files: &["a=b"],
        entry: "--x=y",
        fuel: 1_099_511_627_776,
        workers: 16,
    };
    let line = "orc run --entry=--x=y --fuel=1099511627776 --workers=16 a=b";
    expect(&rt, rt.alloc(), &[(line, Answer::Run(run))])
}

#[test]
fn no_words_are_no_command(rt: HostRuntime) -> Result<(), Fail> {
    let answer = Answer::Refused(UsageKind::NoCommand);
    assert!(rt; are_answered(rt.alloc(), &[], &answer)?);
    Ok(())
}

#[test]
fn word_0_is_no_command(rt: HostRuntime) -> Result<(), Fail> {
    let lines = ["orc", "run", "session"];
    expect_refused(&rt, rt.alloc(), UsageKind::NoCommand, &lines)
}

#[test]
fn word_1_is_the_command(rt: HostRuntime) -> Result<(), Fail> {
    let lines = [
        "orc ",
        "orc Run a.o",
        "orc runs a.o",
        "orc Session",
        "orc sessions",
        "orc sess",
        "orc a",
        "orc asm hello.s",
        "orc As hello.s",
        "orc --help",
        "orc -- run a.o",
        "orc --workers 4 session",
    ];
    expect_refused(&rt, rt.alloc(), UsageKind::UnknownCommand, &lines)
}

#[test]
fn a_file_is_needed(rt: HostRuntime) -> Result<(), Fail> {
    let lines = [
        "orc run",
        "orc run --",
        "orc run --entry a.o",
        "orc run --fuel=x",
    ];
    expect_refused(&rt, rt.alloc(), UsageKind::BadWords, &lines)
}

#[test]
fn an_option_needs_its_value(rt: HostRuntime) -> Result<(), Fail> {
    let lines = [
        "orc run a.o --entry",
        "orc run a.o --fuel -5",
        "orc run a.o --entry --fuel 5",
        "orc run a.o --entry -- start",
        "orc run a.o --entry ",
        "orc run a.o --entry=",
    ];
    expect_refused(&rt, rt.alloc(), UsageKind::BadWords, &lines)
}

#[test]
fn an_option_is_given_once(rt: HostRuntime) -> Result<(), Fail> {
    let lines = [
        "orc run a.o --entry x --entry=x",
        "orc run a.o --fuel=1 --fuel 1",
        "orc run a.o --workers 1 b.o --workers 1",
    ];
    expect_refused(&rt, rt.alloc(), UsageKind::BadWords, &lines)
}

#[test]
fn other_options_are_unknown(rt: HostRuntime) -> Result<(), Fail> {
    let lines = [
        "orc run a.o --ent x",
        "orc run a.o --entry:x",
        "orc run a.o --Entry=x",
        "orc run a.o -f 5",
        "orc run a.o --=x",
        "orc run a.o ---",
        "orc run --help",
        "orc run a.o --version",
        "orc run a.o --fuel 01 --no",
    ];
    expect_refused(&rt, rt.alloc(), UsageKind::BadWords, &lines)
}

#[test]
fn numbers_are_plain_and_in_range(rt: HostRuntime) -> Result<(), Fail> {
    let lines = [
        "orc run a.o --fuel 01",
        "orc run a.o --fuel 00",
        "orc run a.o --fuel +1",
        "orc run a.o --fuel=-1",
        "orc run a.o --fuel -",
        "orc run a.o --fuel=",
        "orc run a.o --fuel ",
        "orc run a.o --fuel 1x",
        "orc run a.o --fuel 1099511627777",
        "orc run a.o --fuel 18446744073709551616",
        "orc run a.o --workers 17",
    ];
    expect_refused(&rt, rt.alloc(), UsageKind::BadNumber, &lines)
}

#[test]
fn zero_is_a_number(rt: HostRuntime) -> Result<(), Fail> {
    let run = Run {
        files: &["a.o"],
        entry: "main",
        fuel: 0,
        workers: 0,
    };
    let line = "orc run a.o --fuel 0 --workers 0";
    expect(&rt, rt.alloc(), &[(line, Answer::Run(run))])
}

#[test]
fn there_are_at_most_1024_files(rt: HostRuntime) -> Result<(), Fail> {
    let run = Run {
        files: &["a.o"; 1_024],
        entry: "main",
        fuel: 1_000_000,
        workers: 0,
    };
    assert!(rt; are_answered_after(rt.alloc(), "orc run", "a.o", 1_024, &Answer::Run(run))?);
    let refused = Answer::Refused(UsageKind::BadWords);
    assert!(rt; are_answered_after(rt.alloc(), "orc run", "a.o", 1_025, &refused)?);
    Ok(())
}

/// A run from an entry whose name has so many bytes is asked for.
fn is_taken(alloc: Global, bytes: usize) -> Result<bool, AllocError> {
    let name = "x".repeat(alloc, bytes)?;
    let run = Run {
        files: &["a.o"],
        entry: name.as_str(),
        fuel: 1_000_000,
        workers: 0,
    };
    are_answered_after(
        alloc,
        "orc run a.o --entry",
        name.as_str(),
        1,
        &Answer::Run(run),
    )
}

/// An entry whose name has so many bytes is refused.
fn is_too_long(alloc: Global, bytes: usize) -> Result<bool, AllocError> {
    let name = "x".repeat(alloc, bytes)?;
    let refused = Answer::Refused(UsageKind::BadWords);
    are_answered_after(alloc, "orc run a.o --entry", name.as_str(), 1, &refused)
}

#[test]
fn an_entry_has_at_most_4096_bytes(rt: HostRuntime) -> Result<(), Fail> {
    assert!(rt; is_taken(rt.alloc(), 4_096)?);
    assert!(rt; is_too_long(rt.alloc(), 4_097)?);
    Ok(())
}

#[test]
fn a_session_may_have_workers(rt: HostRuntime) -> Result<(), Fail> {
    let lines = [
        ("orc session", Answer::Session(0)),
        ("orc session --", Answer::Session(0)),
        ("orc session --workers 0", Answer::Session(0)),
        ("orc session --workers 4", Answer::Session(4)),
        ("orc session --workers=4", Answer::Session(4)),
        ("orc session --workers 16 --", Answer::Session(16)),
    ];
    expect(&rt, rt.alloc(), &lines)
}

#[test]
fn a_session_has_nothing_but_workers(rt: HostRuntime) -> Result<(), Fail> {
    let lines = [
        "orc session a.o",
        "orc session -",
        "orc session ",
        "orc session --workers 4 a.o",
        "orc session -- --workers=4",
        "orc session --entry main",
        "orc session --fuel=1000000",
        "orc session --workers",
        "orc session --workers -4",
        "orc session --workers 4 --workers=4",
        "orc session --worker 4",
        "orc session --help",
    ];
    expect_refused(&rt, rt.alloc(), UsageKind::BadWords, &lines)
}

#[test]
fn workers_of_a_session_are_a_number_in_range(rt: HostRuntime) -> Result<(), Fail> {
    let numbers = [
        "orc session --workers 17",
        "orc session --workers 04",
        "orc session --workers +4",
        "orc session --workers=-4",
        "orc session --workers=",
        "orc session --workers four",
    ];
    expect_refused(&rt, rt.alloc(), UsageKind::BadNumber, &numbers)?;
    let words = [
        "orc session --workers 17 a.o",
        "orc session --workers=x --fuel 1",
    ];
    expect_refused(&rt, rt.alloc(), UsageKind::BadWords, &words)
}

#[test]
fn an_assembly_has_one_file(rt: HostRuntime) -> Result<(), Fail> {
    let lines = [
        ("orc as hello.s", Answer::Assembly("hello.s")),
        ("orc as -", Answer::Assembly("-")),
        ("orc as ", Answer::Assembly("")),
        ("orc as a=b", Answer::Assembly("a=b")),
        ("orc as -- hello.s", Answer::Assembly("hello.s")),
        ("orc as -- --workers", Answer::Assembly("--workers")),
        ("orc as hello.s --", Answer::Assembly("hello.s")),
    ];
    expect(&rt, rt.alloc(), &lines)
}

#[test]
fn an_assembly_has_nothing_but_its_file(rt: HostRuntime) -> Result<(), Fail> {
    let lines = [
        "orc as",
        "orc as --",
        "orc as a.s b.s",
        "orc as a.s -- b.s",
        "orc as a.s ",
        "orc as --workers 0 a.s",
        "orc as a.s --workers=0",
        "orc as a.s --entry main",
        "orc as --fuel=1 a.s",
        "orc as a.s --fuel x",
        "orc as -o a.o a.s",
        "orc as --help",
    ];
    expect_refused(&rt, rt.alloc(), UsageKind::BadWords, &lines)
}

#[test]
fn a_generated_session_has_a_number_of_objects(rt: HostRuntime) -> Result<(), Fail> {
    let lines = [
        ("orc gen 1", Answer::Generation(1)),
        ("orc gen 8", Answer::Generation(8)),
        ("orc gen -- 1000", Answer::Generation(1000)),
        ("orc gen 4096 --", Answer::Generation(4096)),
    ];
    expect(&rt, rt.alloc(), &lines)
}

#[test]
fn a_generated_session_has_nothing_but_its_number(rt: HostRuntime) -> Result<(), Fail> {
    let lines = [
        "orc gen",
        "orc gen --",
        "orc gen 1 2",
        "orc gen 8 ",
        "orc gen -8",
        "orc gen --workers 0 8",
        "orc gen --fuel=1 8",
        "orc gen --help",
    ];
    expect_refused(&rt, rt.alloc(), UsageKind::BadWords, &lines)?;
    let numbers = [
        "orc gen 0",
        "orc gen 08",
        "orc gen +8",
        "orc gen 4097",
        "orc gen 18446744073709551617",
        "orc gen 8x",
        "orc gen 0x8",
        "orc gen ",
        "orc gen -",
        "orc gen -- -8",
    ];
    expect_refused(&rt, rt.alloc(), UsageKind::BadNumber, &numbers)
}
