//! The last places of parts that declare names.
#![tactic(auto, using(crate::proofs::Rows::last_rows))]

ghost use Rattle.std.specs.Prelude.{◌≡◌};
ghost use Rattle.rule_declares.specs.Lasts.{names_last, text_last, vars_last, interactions_last};
ghost use Rattle.rule_declares.specs.Lasts.{by_last, channel_last, points_last, header_last};

use est_syntax::channel::{ByPart, Channel, InteractionDef};
use est_syntax::header::{Header, Point};
use est_syntax::name::Used;
use est_syntax::type_text::{TypeText, VarDef};
use rule_declares::rule_kinds::constants::constant_last;

/// Of names, or else this place.
pub fn names_last(names: &[Used], mut last: u32) -> u32
    ensures { result ≡ names_last names.now last }
{
    for used in names {
        last = used.place;
    }
    last
}

/// Of the text of a type.
#[cycle(last)]
pub fn text_last(text: &TypeText) -> u32
    ensures { result ≡ text_last text.now }
{
    match text {
        TypeText::Named(used) => used.place,
        TypeText::Range { low: _, high } => constant_last(high),
        TypeText::Names { names, place } => names_last(names.as_slice(), *place),
        TypeText::Array {
            index: _,
            of,
            place: _,
        } => text_last(of.get()),
        TypeText::Fields { fields, place } => vars_last(fields.as_slice(), *place),
        TypeText::Set { of, place: _ } => text_last(of.get()),
    }
}

/// Of fields, parameters or exports, or else this place.
#[cycle(last)]
pub fn vars_last(vars: &[VarDef], mut last: u32) -> u32
    ensures { result ≡ vars_last vars.now last }
{
    for var in vars {
        last = text_last(&var.text);
    }
    last
}

// Of interactions, or else this place.
fn interactions_last(interactions: &[InteractionDef], mut last: u32) -> u32
    ensures { result ≡ interactions_last interactions.now last }
{
    for interaction in interactions {
        last = vars_last(interaction.params.as_slice(), interaction.name.place);
    }
    last
}

// Of the parts of a channel, or else this place.
fn by_last(by: &[ByPart], mut last: u32) -> u32
    ensures { result ≡ by_last by.now last }
{
    for part in by {
        last = interactions_last(part.interactions.as_slice(), last);
    }
    last
}

/// Of a channel.
pub fn channel_last(channel: &Channel) -> u32
    ensures { result ≡ channel_last channel.now }
{
    by_last(channel.by.as_slice(), channel.name.place)
}

// Of interaction points, or else this place.
fn points_last(points: &[Point], mut last: u32) -> u32
    ensures { result ≡ points_last points.now last }
{
    for point in points {
        last = point.role.place;
    }
    last
}

/// Of a header, whose sections stand in any order.
pub fn header_last(header: &Header) -> u32
    ensures { result ≡ header_last header.now }
{
    let place = header.name.place;
    let params = vars_last(header.params.as_slice(), place);
    let points = points_last(header.points.as_slice(), place);
    let exports = vars_last(header.exports.as_slice(), place);
    params.max(points.max(exports))
}
