// How a line misuses the command that it names.

use action_tables::{cut, read_number};

// The greatest number of a case.
const GREATEST_CASE: u32 = 255;

/// What is wrong with the arguments of a command.
#[derive(Clone, Copy)]
pub enum Misuse<'l> {
    /// They are others than it takes.
    Takes,
    /// This one is a number greater than the greatest that may stand there.
    Beyond(&'l [u8], u32),
    /// This one is a number with a zero before it.
    Padded(&'l [u8]),
}

/// What is wrong with the words that are given to a command which takes these: the first that is.
pub fn misuse_of<'l>(takes: &[u8], given: &'l [u8]) -> Misuse<'l> {
    let most = count_words(takes);
    let count = count_words(given);
    if count > most || count < most.saturating_sub(count_optional(takes)) || count == 0 {
        return Misuse::Takes;
    }
    let mut places = takes;
    for word in given.split(|byte| *byte == b' ') {
        let (place, rest) = first_word(places);
        if let Some(misuse) = misuse_at(place, word) {
            return misuse;
        }
        places = rest;
    }
    Misuse::Takes
}

// How many words a text has.
fn count_words(text: &[u8]) -> usize {
    if text.is_empty() {
        return 0;
    }
    text.split(|byte| *byte == b' ').count()
}

// How many of the words that a command takes may be left out.
fn count_optional(takes: &[u8]) -> usize {
    takes.iter().filter(|byte| **byte == b'[').count()
}

// The first word of a text, and what follows the space after it.
fn first_word(text: &[u8]) -> (&[u8], &[u8]) {
    cut(text, b' ').unwrap_or((text, b""))
}

// What is wrong with a word at a place of this name.
fn misuse_at<'l>(place: &[u8], word: &'l [u8]) -> Option<Misuse<'l>> {
    match place {
        b"TEXT" => None,
        b"PHASE" => misuse_of_phase(word),
        b"CASE" => misuse_of_case(word),
        _ => misuse_of_number(word, u32::MAX),
    }
}

fn misuse_of_phase(word: &[u8]) -> Option<Misuse<'_>> {
    match word {
        b"normal" | b"initiate" | b"reset" => None,
        _ => Some(Misuse::Takes),
    }
}

fn misuse_of_case(word: &[u8]) -> Option<Misuse<'_>> {
    match word {
        [first, ..] if first.is_ascii_alphabetic() => None,
        _ => misuse_of_number(word, GREATEST_CASE),
    }
}

fn misuse_of_number(word: &[u8], greatest: u32) -> Option<Misuse<'_>> {
    if !is_digits(word) {
        return Some(Misuse::Takes);
    }
    if matches!(word, [b'0', _, ..]) {
        return Some(Misuse::Padded(word));
    }
    match read_number(word) {
        Some(number) if number <= greatest => None,
        _ => Some(Misuse::Beyond(word, greatest)),
    }
}

fn is_digits(word: &[u8]) -> bool {
    !word.is_empty() && word.iter().all(u8::is_ascii_digit)
}
