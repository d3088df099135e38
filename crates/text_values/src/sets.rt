//! Sets.
ghost use Rattle.std.specs.Prelude.{◌≡◌, ◌≤◌, ◌++◌, ◌∷◌, [], length, true, MatchOption, OnOk};
ghost use Rattle.std.specs.Prelude.{OnErr};
ghost use Rattle.std.specs.List.{insert};
ghost use Rattle.text_values.specs.TraceGrammar as grammar;
ghost use Rattle.text_values.specs.ValueReading.{Reads};
ghost use Rattle.text_values.specs.ValueShapes.{ShowsOrdinal, ShowsSet, ShowsMembers};
ghost use Rattle.text_values.specs.inside.Gathering.{IsAscending, with_member, ReadsMember};

use crate::ordinals::ordinal;
use est_lexer::kind::{Symbol, TokenKind};
use est_syntax::kind::{Kind, Ordinals};
use std::alloc::AllocError;
use std::cmp::Ordering;
use text_reader::Reader;

/// A set over a base: its members in brackets, in any order.
pub fn set(reader: &mut Reader, base: &Kind) -> Ordinals
    ensures { Reads (grammar.set base.now) (λ t. ShowsSet base.now result t)
        reader.old reader.new }
{
    reader.symbol(Symbol::LeftBracket);
    if reader.sees(TokenKind::Symbol(Symbol::RightBracket)) {
        reader.symbol(Symbol::RightBracket);
        return Ordinals::new(reader.alloc);
    }
    let found = members(reader, base);
    reader.symbol(Symbol::RightBracket);
    found
}

// ordinal { "," ordinal }
fn members(reader: &mut Reader, base: &Kind) -> Ordinals
    ensures { Reads (grammar.members base.now) (λ t. ShowsMembers base.now result t)
        reader.old reader.new }
{
    let mut members = Ordinals::new(reader.alloc);
    member(reader, base, &mut members);
    while reader.sees(TokenKind::Symbol(Symbol::Comma)) {
        reader.symbol(Symbol::Comma);
        member(reader, base, &mut members);
    }
    members
}

// One member more.
fn member(reader: &mut Reader, base: &Kind, members: &mut Ordinals)
    requires { IsAscending members.old }
    ensures reads { ReadsMember (grammar.ordinal base.now) (ShowsOrdinal base.now) reader.old
        members.old reader.new members.new }
    ensures ascend { IsAscending members.new }
{
    let z = ordinal(reader, base);
    match put(z, members) {
        Ok(_) => {}
        Err(_) => reader.spend(),
    }
}

// Puts a member into a set.
fn put(z: i32, members: &mut Ordinals) -> Result<(), AllocError>
    requires { IsAscending members.old }
    ensures ok { OnOk result (members.new ≡ with_member z members.old) }
    ensures err { OnErr result (members.new ≡ members.old) }
{
    if is_above(z, members.as_slice()) {
        return members.push(z);
    }
    match room(z, members.as_slice()) {
        None => Ok(()),
        Some(at) => {
            members.items.insert(at, z)?;
            Ok(())
        }
    }
}

// Whether an ordinal is above all members, as mostly in a text.
fn is_above(z: i32, members: &[i32]) -> bool
    requires { IsAscending members.now }
    ensures { result ≡ true → with_member z members.now ≡ members.now ++ z ∷ [] }
{
    let count = members.len();
    if count == 0 {
        return true;
    }
    members[count - 1] < z
}

// Where an ordinal is to be put, where it is no member.
fn room(z: i32, members: &[i32]) -> Option<usize>
    ensures { MatchOption result (with_member z members.now ≡ members.now)
        (λ at. (at ≤ length members.now)
        × (with_member z members.now ≡ insert members.now at z)) }
{
    for (i, member) in members.iter().enumerate() {
        match z.cmp(member) {
            Ordering::Equal => return None,
            Ordering::Less => return Some(i),
            Ordering::Greater => {}
        }
    }
    Some(members.len())
}
