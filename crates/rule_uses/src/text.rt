//! Whether a routine may name what constants and texts of types look up.
#![tactic(auto, using(crate::proofs::Sequences::free_append, crate::proofs::TextRows::rows))]

ghost use Rattle.std.specs.Prelude.{◌≡◌};
ghost use Rattle.rule_uses.specs.Closed.{all_free};
ghost use Rattle.rule_uses.specs.NamesInTexts.{constant_names, constants_names};
ghost use Rattle.rule_uses.specs.NamesInTexts.{text_names, texts_names};
ghost use Rattle.rule_uses.specs.NamesInTexts.{vardef_names, vardefs_names};

use crate::free::is_free;
use est_syntax::constant::Constant;
use est_syntax::type_text::{TypeText, VarDef};
use rule_scope::outline::Outline;

/// Whether the routine may name what a constant looks up.
pub fn constant(outline: &Outline, routine: u32, constant: &Constant) -> bool
    ensures { result ≡ all_free outline.now routine (constant_names constant.now) }
{
    match constant {
        Constant::Named { name, .. } => is_free(outline, routine, name),
        _ => true,
    }
}

/// Whether the routine may name what constants look up.
pub fn constants(outline: &Outline, routine: u32, constants: &[Constant]) -> bool
    ensures { result ≡ all_free outline.now routine (constants_names constants.now) }
{
    for one in constants {
        if !constant(outline, routine, one) {
            return false;
        }
    }
    true
}

/// Whether the routine may name what the text of a type looks up.
#[cycle(type_text)]
pub fn type_text(outline: &Outline, routine: u32, text: &TypeText) -> bool
    ensures { result ≡ all_free outline.now routine (text_names text.now) }
{
    match text {
        TypeText::Named(used) => is_free(outline, routine, used),
        TypeText::Range { low, high } => {
            constant(outline, routine, low) && constant(outline, routine, high)
        }
        TypeText::Names { .. } => true,
        TypeText::Array { index, of, .. } => {
            type_texts(outline, routine, index.as_slice()) && type_text(outline, routine, of.get())
        }
        TypeText::Fields { fields, .. } => vardefs(outline, routine, fields.as_slice()),
        TypeText::Set { of, .. } => type_text(outline, routine, of.get()),
    }
}

// Whether the routine may name what texts of types look up.
#[cycle(type_text)]
fn type_texts(outline: &Outline, routine: u32, texts: &[TypeText]) -> bool
    ensures { result ≡ all_free outline.now routine (texts_names texts.now) }
{
    for text in texts {
        if !type_text(outline, routine, text) {
            return false;
        }
    }
    true
}

// Whether the routine may name what names declared with one type look up.
#[cycle(type_text)]
fn vardef(outline: &Outline, routine: u32, def: &VarDef) -> bool
    ensures { result ≡ all_free outline.now routine (vardef_names def.now) }
{
    type_text(outline, routine, &def.text)
}

/// Whether the routine may name what names declared with their types look up.
#[cycle(type_text)]
pub fn vardefs(outline: &Outline, routine: u32, defs: &[VarDef]) -> bool
    ensures { result ≡ all_free outline.now routine (vardefs_names defs.now) }
{
    for def in defs {
        if !vardef(outline, routine, def) {
            return false;
        }
    }
    true
}
