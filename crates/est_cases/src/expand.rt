//! What a cell stands for.

ghost use Rattle.std.specs.Prelude.{◌<◌, ◌≤◌, length, IfSome};

use crate::mistake::Mistake;
use crate::texts::Texts;

/// Appends what a cell stands for: `$NAME` is a shared text, `\` begins an escape, and all else
/// stands for itself.
pub fn expand(texts: &Texts, cell: &str, out: &mut Vec<u8>) -> Result<(), Mistake> {
    let mut in_front = true;
    for piece in cell.as_bytes().split(|byte| *byte == b'$') {
        if in_front {
            expand_escapes(piece, out)?;
        } else {
            expand_name(texts, piece, out)?;
        }
        in_front = false;
    }
    Ok(())
}

// Appends the shared text whose name stands in front, and what the rest stands for.
fn expand_name(texts: &Texts, piece: &[u8], out: &mut Vec<u8>) -> Result<(), Mistake> {
    let (name, rest) = piece.split_at(name_length(piece));
    match texts.find(name) {
        Some(text) => out.extend_from_slice(text)?,
        None => return Err(Mistake::NoSuchText),
    }
    expand_escapes(rest, out)
}

// The length of the name in front.
fn name_length(piece: &[u8]) -> usize
    ensures { result ≤ length piece.now }
{
    piece
        .iter()
        .position(|byte| !(byte.is_ascii_alphanumeric() || *byte == b'_'))
        .unwrap_or(piece.len())
}

// Appends bytes, some of which may stand in escapes.
fn expand_escapes(piece: &[u8], out: &mut Vec<u8>) -> Result<(), Mistake> {
    let mut in_front = true;
    for part in piece.split(|byte| *byte == b'\\') {
        if in_front {
            out.extend_from_slice(part)?;
        } else {
            expand_escape(part, out)?;
        }
        in_front = false;
    }
    Ok(())
}

// Appends the byte of the escape in front, and the rest.
fn expand_escape(part: &[u8], out: &mut Vec<u8>) -> Result<(), Mistake> {
    match part {
        [b'n', rest @ ..] => append(b'\n', rest, out),
        [b't', rest @ ..] => append(b'\t', rest, out),
        [b'r', rest @ ..] => append(b'\r', rest, out),
        [b's', rest @ ..] => append(b' ', rest, out),
        [b'e', rest @ ..] => Ok(out.extend_from_slice(rest)?),
        [b'x', high, low, rest @ ..] => match (digit(*high), digit(*low)) {
            (Some(high), Some(low)) => append(high * 16 + low, rest, out),
            _ => Err(Mistake::BadEscape),
        },
        _ => Err(Mistake::BadEscape),
    }
}

// Appends a byte, and then the rest.
fn append(byte: u8, rest: &[u8], out: &mut Vec<u8>) -> Result<(), Mistake> {
    out.push(byte)?;
    Ok(out.extend_from_slice(rest)?)
}

// The value of a hexadecimal digit.
fn digit(byte: u8) -> Option<u8>
    ensures { IfSome result (λ value. value < 16) }
{
    match byte {
        b'0'..=b'9' => Some(byte - b'0'),
        b'a'..=b'f' => Some(byte - b'a' + 10),
        _ => None,
    }
}
