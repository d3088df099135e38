//! Whether a routine is closed.
#![tactic(auto, using(crate::proofs::Sequences::free_append))]

ghost use Rattle.std.specs.Prelude.{◌≡◌};
ghost use Rattle.rule_uses.specs.Closed.{all_free, is_closed};
ghost use Rattle.rule_uses.specs.Routines.{constdef_names, constdefs_names, typedef_names};
ghost use Rattle.rule_uses.specs.Routines.{typedefs_names, part_names, parts_names, block_names};
ghost use Rattle.rule_uses.specs.Routines.{formal_names, formals_names, result_names};

use crate::free::is_free;
use crate::statement::statements;
use crate::text::{constant, type_text, vardefs};
use est_syntax::body::{Block, Part};
use est_syntax::constant::ConstDef;
use est_syntax::name::Used;
use est_syntax::routine::{Formal, Routine};
use est_syntax::type_text::TypeDef;
use rule_scope::outline::Outline;

// Whether the routine may name what the definition of a constant looks up.
fn constdef(outline: &Outline, routine: u32, def: &ConstDef) -> bool
    ensures { result ≡ all_free outline.now routine (constdef_names def.now) }
{
    constant(outline, routine, &def.value)
}

// Whether the routine may name what definitions of constants look up.
fn constdefs(outline: &Outline, routine: u32, defs: &[ConstDef]) -> bool
    ensures { result ≡ all_free outline.now routine (constdefs_names defs.now) }
{
    for def in defs {
        if !constdef(outline, routine, def) {
            return false;
        }
    }
    true
}

// Whether the routine may name what the definition of a type looks up.
fn typedef(outline: &Outline, routine: u32, def: &TypeDef) -> bool
    ensures { result ≡ all_free outline.now routine (typedef_names def.now) }
{
    type_text(outline, routine, &def.text)
}

// Whether the routine may name what definitions of types look up.
fn typedefs(outline: &Outline, routine: u32, defs: &[TypeDef]) -> bool
    ensures { result ≡ all_free outline.now routine (typedefs_names defs.now) }
{
    for def in defs {
        if !typedef(outline, routine, def) {
            return false;
        }
    }
    true
}

// Whether the routine may name what a part of its block looks up.
fn part(outline: &Outline, routine: u32, part: &Part) -> bool
    ensures { result ≡ all_free outline.now routine (part_names part.now) }
{
    match part {
        Part::Consts(defs) => constdefs(outline, routine, defs.as_slice()),
        Part::Types(defs) => typedefs(outline, routine, defs.as_slice()),
        Part::Vars(defs) => vardefs(outline, routine, defs.as_slice()),
        _ => true,
    }
}

// Whether the routine may name what the parts of its block look up.
fn parts(outline: &Outline, routine: u32, parts: &[Part]) -> bool
    ensures { result ≡ all_free outline.now routine (parts_names parts.now) }
{
    for one in parts {
        if !part(outline, routine, one) {
            return false;
        }
    }
    true
}

// Whether the routine may name what its block looks up.
fn block(outline: &Outline, routine: u32, block: &Block) -> bool
    ensures { result ≡ all_free outline.now routine (block_names block.now) }
{
    parts(outline, routine, block.parts.as_slice())
        && statements(outline, routine, block.statements.as_slice())
}

// Whether the routine may name what parameters declared together look up.
fn formal(outline: &Outline, routine: u32, formal: &Formal) -> bool
    ensures { result ≡ all_free outline.now routine (formal_names formal.now) }
{
    is_free(outline, routine, &formal.kind)
}

// Whether the routine may name what its parameters look up.
fn formals(outline: &Outline, routine: u32, formals: &[Formal]) -> bool
    ensures { result ≡ all_free outline.now routine (formals_names formals.now) }
{
    for one in formals {
        if !formal(outline, routine, one) {
            return false;
        }
    }
    true
}

// Whether the routine may name what its result looks up.
fn result_type(outline: &Outline, routine: u32, name: &Option<Used>) -> bool
    ensures { result ≡ all_free outline.now routine (result_names name.now) }
{
    match name {
        None => true,
        Some(used) => is_free(outline, routine, used),
    }
}

/// Whether nested bodies may call a routine: it names nothing that belongs to one module alone.
pub fn is_closed(outline: &Outline, routine: &Routine) -> bool
    ensures { result ≡ is_closed outline.now routine.now }
{
    let place = routine.name.place;
    formals(outline, place, routine.formals.as_slice())
        && result_type(outline, place, &routine.result)
        && block(outline, place, &routine.block)
}
