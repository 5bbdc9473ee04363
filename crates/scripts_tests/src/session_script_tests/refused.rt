use super::read;
use session_script::{ScriptError, ScriptWhy};
use std::alloc::Global;

/// A script, its first bad line, and the first reason that applies to that line.
type Row<'a> = (&'a str, u32, ScriptWhy);

/// The first of the scripts that isn't refused so.
fn first_other<'a>(alloc: Global, rows: &[Row<'a>]) -> Option<&'a str> {
    for (text, line, why) in rows {
        let refused = ScriptError::BadLine(*line, *why);
        if read(alloc, text).err() != Some(refused) {
            return Some(*text);
        }
    }
    None
}

#[test]
fn each_refusal_has_its_reason(rt: HostRuntime) {
    let rows = [
        ("dylib  main\n", 1, ScriptWhy::Bytes),
        ("frob\n", 1, ScriptWhy::Word),
        ("dylib\n", 1, ScriptWhy::Count),
        ("dylib a-b\n", 1, ScriptWhy::Name),
        ("dylib a\ndylib a\n", 2, ScriptWhy::Taken),
        ("object x t f\n", 1, ScriptWhy::Unknown),
        ("dylib a\nclient\nrun f 08\n", 3, ScriptWhy::Number),
        (
            "client\nlookup ready main:all main\n",
            2,
            ScriptWhy::Unknown,
        ),
    ];
    assert_eq!(rt; first_other(rt.alloc(), &rows), None);
}

#[test]
fn the_first_reason_is_the_answer(rt: HostRuntime) {
    let rows = [
        (" frob\n", 1, ScriptWhy::Bytes),
        ("frob\t\n", 1, ScriptWhy::Bytes),
        ("dylib a-b c\n", 1, ScriptWhy::Count),
        ("tracker a-b a:\n", 1, ScriptWhy::Name),
        ("absolute a b x=g x=g\n", 1, ScriptWhy::Number),
        ("absolute a b x=1 x=1\n", 1, ScriptWhy::Taken),
        ("order a b:some\n", 1, ScriptWhy::Order),
        ("alias a b d:e\n", 1, ScriptWhy::Name),
        ("alias a b c=d\n", 1, ScriptWhy::Name),
        ("client\nwatch soon a:all x,y\n", 2, ScriptWhy::Name),
        ("client\nwatch soon a:all x\n", 2, ScriptWhy::Order),
    ];
    assert_eq!(rt; first_other(rt.alloc(), &rows), None);
}

#[test]
fn lines_stand_in_their_places(rt: HostRuntime) {
    let rows = [
        ("remove t\n", 1, ScriptWhy::Word),
        ("client\ndylib a\n", 2, ScriptWhy::Word),
        ("client x\n", 1, ScriptWhy::Count),
        ("#\n\n# x  y\nfrob", 4, ScriptWhy::Word),
        ("client\nrun f 1 1 2 3 4 5 6 7 8 9\n", 2, ScriptWhy::Count),
        ("peek f\n", 1, ScriptWhy::Word),
        ("client\npeek\n", 2, ScriptWhy::Count),
        ("client\npeek f? g\n", 2, ScriptWhy::Count),
        ("client\npeek f?\n", 2, ScriptWhy::Name),
    ];
    assert_eq!(rt; first_other(rt.alloc(), &rows), None);
}

#[test]
fn there_is_a_note_for_each_watch(rt: HostRuntime) {
    let three = "dylib a\nclient\nwatch ready a:all x\nwatch ready a:all y\nwatch ready a:all z\n";
    let rows = [(three, 5, ScriptWhy::NoNote)];
    assert_eq!(rt; first_other(rt.alloc(), &rows), None);
}
