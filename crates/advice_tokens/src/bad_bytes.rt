//! What is known of bytes with which no token begins.

use crate::marks::{closing_at, opening_at};

const QUOTE: u8 = b'\'';

// The marks with which texts begin that are not in single bytes, or say that they are.
const UTF_8: [u8; 3] = [0xef, 0xbb, 0xbf];

const UTF_16: [u8; 2] = [0xff, 0xfe];

const UTF_16_SWAPPED: [u8; 2] = [0xfe, 0xff];

// Whether a text has two bytes for each character: by its first mark, or by a byte 0 beside a
// letter.
fn is_wide(text: &[u8]) -> bool {
    if text.starts_with(&UTF_16) || text.starts_with(&UTF_16_SWAPPED) {
        return true;
    }
    match text {
        [first, second, ..] => (*first == 0) != (*second == 0),
        _ => false,
    }
}

// What is known of the beginning of a text.
fn text_of_beginning(text: &[u8]) -> Option<&'static str> {
    if text.starts_with(&UTF_8) {
        return Some("a byte order mark stands here: save the text without it");
    }
    if is_wide(text) {
        return Some("this text looks like UTF-16: save it as ASCII or UTF-8");
    }
    None
}

// What is known of a byte.
fn text_of_byte(byte: u8) -> &'static str {
    match byte {
        QUOTE => "a character constant has one character between quotes, and there are no strings",
        b'"' => "a character constant stands between single quotes, and there are no strings",
        b'!' => "there is no '!': write 'not', '<>' for unequal, or 'output N.Ack' to send",
        b'&' => "there is no '&': write 'and'",
        b'|' => "there is no '|': write 'or'",
        b'%' => "there is no '%': write 'mod'",
        0 => "this byte is 0, which stands in no text",
        128..=255 => "names are made of letters from a to z, digits and '_'",
        _ => "no token begins with this character",
    }
}

const SPACE: &str = "this is a no-break space: write a space";

const WORD_QUOTE: &str = "this is a quote of a word processor: write '";

const DASH: &str = "this is a dash of a word processor: write '-'";

// What is known of characters that word processors write, in UTF-8, or of a space of one byte.
fn text_of_character(bytes: &[u8]) -> Option<&'static str> {
    match bytes {
        [0xc2, 0xa0, ..] => Some(SPACE),
        [0xa0, ..] => Some(SPACE),
        [0xe2, 0x80, 0x98..=0x9f, ..] => Some(WORD_QUOTE),
        [0xe2, 0x80, 0x90..=0x95, ..] => Some(DASH),
        _ => None,
    }
}

/// What is known of the bytes of a text at a place where no token begins.
pub fn text_of_bytes(text: &[u8], offset: usize) -> &'static str {
    let byte = text.get(offset).copied().unwrap_or(0);
    if offset < 2 {
        if let Some(known) = text_of_beginning(text) {
            return known;
        }
    }
    if let Some(known) = text_of_character(&text[offset.min(text.len())..]) {
        return known;
    }
    if opening_at(text, offset) > 0 {
        "no mark after this one closes the comment"
    } else if closing_at(text, offset) > 0 {
        "no comment is open here"
    } else if byte.is_ascii_digit() {
        "a number has at most 18 digits"
    } else {
        text_of_byte(byte)
    }
}
