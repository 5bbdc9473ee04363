//! The parts of a text.

/// The text of bytes, or none where they are no text.
pub fn text_of(bytes: &[u8]) -> &str {
    std::str::from_utf8(bytes).unwrap_or("")
}

/// The last line of a text.
pub fn last_line(text: &[u8]) -> &[u8] {
    let mut start = 0;
    for (k, byte) in text.iter().enumerate() {
        if *byte == b'\n' && k + 1 < text.len() {
            start = k + 1;
        }
    }
    text.get(start..).unwrap_or(text)
}

/// Whether each part is in the text.
pub fn all_in(parts: &[&str], text: &str) -> bool {
    for part in parts {
        if !text.contains(*part) {
            return false;
        }
    }
    true
}

/// Whether a text is another one, but for a part where it stands first, which has another text in its place.
pub fn is_like(text: &str, other: &str, part: &str, in_its_place: &str) -> bool {
    let Some((before, after)) = other.split_once(part) else {
        return false;
    };
    let Some(rest) = text.strip_prefix(before) else {
        return false;
    };
    rest.strip_prefix(in_its_place) == Some(after)
}

/// The results of the lines, which stand after the journal. No entry has their first words in it.
pub fn results_of(text: &str) -> &str {
    match text.find("c1 l1 ") {
        Some(at) => text.get(at..).unwrap_or(""),
        None => "",
    }
}

/// The journal, which stands before the results.
fn journal_of(text: &str) -> &str {
    match text.find("c1 l1 ") {
        Some(at) => text.get(..at).unwrap_or(""),
        None => text,
    }
}

/// The number of an entry, and whether it is seat 0's.
fn read_entry(line: &str) -> Option<(u64, bool)> {
    let (number, rest) = line.split_once(' ')?;
    let number = number.parse::<u64>().ok()?;
    Some((number, rest.starts_with("s0 ")))
}

/// Whether there are entries, numbered from 1 up, of which seat 0's come first.
pub fn is_in_order(text: &str) -> bool {
    let mut count = 0_u64;
    let mut set_up = true;
    for line in journal_of(text).lines() {
        let Some((number, by_first)) = read_entry(line) else {
            return false;
        };
        if number == 0 || number - 1 != count || (by_first && !set_up) {
            return false;
        }
        count = number;
        set_up = by_first;
    }
    count > 0
}
