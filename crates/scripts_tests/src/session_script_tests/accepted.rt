use super::read;
use orc_ids::{DylibId, Level, NameId, TrackId, Wanted};
use session_script::{AliasLine, ClientLine, LookupLine, Script, ScriptError, SetupLine};
use std::alloc::Global;
use std::test::Fail;

const MAIN: DylibId = DylibId(0);

const T: TrackId = TrackId(0);

/// How many lines the set-up has, and how many clients, files and names there are.
fn counts(alloc: Global, text: &str) -> Result<[usize; 4], ScriptError> {
    let script = read(alloc, text)?;
    let (files, names) = (script.files.len(), script.names.len());
    Ok([script.setup.len(), script.clients.len(), files, names])
}

#[test]
fn the_empty_script_asks_for_nothing(rt: HostRuntime) -> Result<(), Fail> {
    assert_eq!(rt; counts(rt.alloc(), "")?, [0, 0, 0, 0]);
    Ok(())
}

/// Whether the script sets two lines up, and then this alias.
fn has_alias(script: &Script, alias: AliasLine) -> bool {
    match script.setup.as_slice() {
        [_, _, SetupLine::Alias(line)] => *line == alias,
        _ => false,
    }
}

/// Whether the names are looked up at Resolved.
fn looks_up(line: &LookupLine, wanted: &[Wanted]) -> bool {
    line.level == Level::Resolved && line.wanted.as_slice() == wanted
}

/// Whether the lines are one watch of the names, at Resolved, whose end the first note is told.
fn are_watch(lines: &[ClientLine], wanted: &[Wanted]) -> bool {
    match lines {
        [ClientLine::Watch(0, line)] => looks_up(line, wanted),
        _ => false,
    }
}

/// Whether of two clients the second watches the names.
fn second_watches(script: &Script, wanted: &[Wanted]) -> bool {
    match script.clients.as_slice() {
        [_, second] => are_watch(second.as_slice(), wanted),
        _ => false,
    }
}

/// Whether the script has the alias, and a second client that watches the name, which is weak.
fn has_both(
    alloc: Global,
    text: &str,
    alias: AliasLine,
    name: NameId,
) -> Result<[bool; 2], ScriptError> {
    let script = read(alloc, text)?;
    let wanted = [Wanted { name, weak: true }];
    Ok([has_alias(&script, alias), second_watches(&script, &wanted)])
}

#[test]
fn an_alias_and_a_weak_name(rt: HostRuntime) -> Result<(), Fail> {
    let text =
        "dylib a\ntracker a t\nalias a t f=a:g\nclient\nclient\nwatch resolved a:exported f?\n";
    let alias = AliasLine {
        dylib: MAIN,
        tracker: T,
        name: NameId(1),
        source: MAIN,
        target: NameId(2),
    };
    assert_eq!(rt; has_both(rt.alloc(), text, alias, NameId(1))?, [true, true]);
    Ok(())
}

/// Lists of one item and of several, and of arguments none too, in each line that has one.
const LISTS: &str = "dylib a
dylib b
tracker a t
order a b:all
order b a:exported b:all
absolute a t f=0
absolute a t g=1 h=2
client
lookup resolved a:all f
lookup ready a:exported,b:all f g? h
watch ready b:exported f
watch resolved b:all,a:all f? g
run f 0
run f 1 7
run f 2 0 1 2 3 4 5 6 7
peek f
";

/// How many items the list of a setup line has.
fn setup_items(line: &SetupLine) -> Option<usize> {
    match line {
        SetupLine::Order(_, order) => Some(order.len()),
        SetupLine::Absolute(_, _, symbols) => Some(symbols.len()),
        _ => None,
    }
}

/// How many items the order of a client's line has, and how many names or arguments it has.
fn client_items(line: &ClientLine) -> Option<(usize, usize)> {
    match line {
        ClientLine::Lookup(line) | ClientLine::Watch(_, line) => {
            Some((line.order.len(), line.wanted.len()))
        }
        ClientLine::Run(_, _, args) => Some((0, args.len())),
        ClientLine::Peek(_) => Some((0, 1)),
        _ => None,
    }
}

/// The first line of the set-up whose list hasn't this length.
fn other_setup_line(
    alloc: Global,
    text: &str,
    lengths: &[Option<usize>],
) -> Result<Option<usize>, ScriptError> {
    let script = read(alloc, text)?;
    let lines = script.setup.as_slice();
    for (k, (line, length)) in lines.iter().zip(lengths).enumerate() {
        if setup_items(line) != *length {
            return Ok(Some(k));
        }
    }
    Ok(one_beyond(lines.len(), lengths.len()))
}

/// Where one of two lists goes on beyond the other.
fn one_beyond(first: usize, second: usize) -> Option<usize> {
    if first == second {
        None
    } else {
        Some(first.min(second))
    }
}

/// The first of the calls whose lists haven't these lengths.
fn other_call(calls: &[ClientLine], lengths: &[(usize, usize)]) -> Option<usize> {
    for (k, (line, length)) in calls.iter().zip(lengths).enumerate() {
        if client_items(line) != Some(*length) {
            return Some(k);
        }
    }
    one_beyond(calls.len(), lengths.len())
}

/// The first call of the one client whose lists haven't these lengths; its first where there is no client,
/// or another one.
fn other_call_of_one(
    alloc: Global,
    text: &str,
    lengths: &[(usize, usize)],
) -> Result<Option<usize>, ScriptError> {
    let script = read(alloc, text)?;
    match script.clients.as_slice() {
        [client] => Ok(other_call(client.as_slice(), lengths)),
        _ => Ok(Some(0)),
    }
}

#[test]
fn memory_is_enough_for_lists_of_any_number_of_items(rt: HostRuntime) -> Result<(), Fail> {
    let alloc = rt.alloc();
    let setup = [None, None, None, Some(1), Some(2), Some(1), Some(2)];
    let calls = [
        (1, 1),
        (2, 3),
        (1, 1),
        (2, 2),
        (0, 0),
        (0, 1),
        (0, 8),
        (0, 1),
    ];
    assert_eq!(rt; other_setup_line(alloc, LISTS, &setup)?, None);
    assert_eq!(rt; other_call_of_one(alloc, LISTS, &calls)?, None);
    Ok(())
}

#[test]
fn memory_is_enough_for_a_script_of_one_line(rt: HostRuntime) -> Result<(), Fail> {
    assert_eq!(rt; counts(rt.alloc(), "client\n")?, [0, 1, 0, 0]);
    assert_eq!(rt; counts(rt.alloc(), "dylib a")?, [1, 0, 0, 1]);
    Ok(())
}
