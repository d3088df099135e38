//! Explanations, written.

ghost use Rattle.std.specs.Prelude.{◌≡◌, ◌≤◌, ◌+◌, ◌++◌, IfOk, OnOk, codes, drop, length};
ghost use Rattle.std.specs.Fmt.{decimal};
ghost use Rattle.est_explanation.specs.CanonicalExplanation.{canonical, move_line, claim_line};
ghost use Rattle.est_explanation.specs.declared.write.TheConstants.{WIDEST};

use crate::explanation::Explanation;
use est_meaning::firing::Firing;
use est_meaning::run::Move;
use itoa::write_digits;
use std::alloc::{AllocError, Global};

// The most bytes of a blank and a number.
const WIDEST: usize = 11;

/// The canonical text of an explanation.
pub fn write_explanation(alloc: Global, explanation: &Explanation) -> Result<Vec<u8>, AllocError>
    ensures { IfOk result (λ text. text.items ≡ canonical explanation.now) }
{
    let mut text = Vec::new(alloc);
    append_explanation(&mut text, explanation.moves.as_slice(), explanation.claim)?;
    Ok(text)
}

/// Adds the canonical text of the explanation with these moves and this claim to a text.
pub fn append_explanation(text: &mut Vec<u8>, moves: &[Move], claim: u32) -> Result<(), AllocError>
    ensures { OnOk result (text.new.items
        ≡ text.old.items ++ canonical (record { moves = moves.now; claim = claim })) }
{
    text.extend_from_slice(b"explanation 1\n")?;
    for next in moves {
        write_move(text, next)?;
    }
    write_claim(text, claim)
}

// The line of a move, after a text.
fn write_move(text: &mut Vec<u8>, next: &Move) -> Result<(), AllocError>
    ensures { OnOk result (text.new.items ≡ text.old.items ++ move_line next.now) }
{
    match next {
        Move::Take => text.extend_from_slice(b"take\n"),
        Move::Fire(firing) => write_firing(text, *firing),
    }
}

// The line of a firing, after a text.
fn write_firing(text: &mut Vec<u8>, firing: Firing) -> Result<(), AllocError>
    ensures { OnOk result (text.new.items ≡ text.old.items ++ move_line (Move.Fire firing)) }
{
    let mut line = [b'\n'; 3 * WIDEST + 1];
    let start = put_number(&mut line, 3 * WIDEST, firing.choice);
    let start = put_number(&mut line, start, firing.transition);
    let start = put_number(&mut line, start, firing.instance);
    text.extend_from_slice(b"fire")?;
    text.extend_from_slice(&line[start..])
}

// The line of the claim, after a text.
fn write_claim(text: &mut Vec<u8>, claim: u32) -> Result<(), AllocError>
    ensures { OnOk result (text.new.items ≡ text.old.items ++ claim_line claim) }
{
    let mut line = [b'\n'; WIDEST + 1];
    let start = put_number(&mut line, WIDEST, claim);
    text.extend_from_slice(b"yields")?;
    text.extend_from_slice(&line[start..])
}

// Puts a blank and a number before what stands from `end` on, and answers where the blank stands.
fn put_number(line: &mut [u8], end: usize, number: u32) -> usize
    requires room { WIDEST ≤ end }
    requires inside { end ≤ length line.old }
    ensures put { drop result line.new ≡ codes " " ++ decimal number ++ drop end line.old }
    ensures near { end ≤ result + WIDEST }
{
    let start = write_digits(u64::from(number), line, end) - 1;
    line[start] = b' ';
    start
}
