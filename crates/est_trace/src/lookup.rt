//! Heads of ports and signals, by the names that stand in a text.

ghost use Rattle.std.specs.Prelude.{◌≡◌, false, slice_get};
ghost use Rattle.std.specs.Option.{option_map_or};
ghost use Rattle.est_meaning.specs.rule_declares.Differing.{HaveDifferentNames};
ghost use Rattle.text_reader.specs.Moving.{Still};
ghost use Rattle.text_values.specs.TraceGrammar as grammar;
ghost use Rattle.text_values.specs.declared.formats.Format.TheVariants as formats;
ghost use Rattle.est_trace.specs.PortNames.{signal_name};
ghost use Rattle.est_trace.specs.PortNames as names;
ghost use Rattle.est_trace.specs.Directories.{IsDirectory};
ghost use Rattle.est_trace.specs.inside.Parts.{parameters_of};
ghost use Rattle.est_trace.specs.inside.Lookups.{Finds};

use crate::directory::Directory;
use crate::hints::{Hints, passes};
use est_syntax::kind::Kind;
use est_syntax::ports::{Direction, Signal};
use text_reader::Reader;

/// The kinds of the parameters of the signal of this number; none where there is no such signal.
pub fn parameters_at(signals: &[Signal], signal: u32) -> &[Kind]
    ensures { result.now ≡ parameters_of (slice_get signals.now signal) }
{
    match signals.get(signal as usize) {
        Some(signal) => signal.kinds.as_slice(),
        None => &[],
    }
}

// Whether the signal of this number passes its port in this direction.
fn passes_at(signals: &[Signal], signal: u32, direction: Direction) -> bool
    ensures { result
        ≡ option_map_or (names.passes direction) (slice_get signals.now signal) false }
{
    match signals.get(signal as usize) {
        Some(signal) => passes(signal, direction),
        None => false,
    }
}

/// The number of the head that stands at the place, where some signal passes it in this direction.
pub fn find_head(
    reader: &mut Reader,
    directory: &Directory,
    hints: &mut Hints,
    direction: Direction,
) -> Option<u32>
    requires { IsDirectory directory.now }
    ensures still { Still reader.old reader.new }
    ensures found { Finds (grammar.port formats.Complete direction) directory.now.ports.now
        reader.old result reader.new }
{
    let Some(name) = reader.name_here() else {
        return None;
    };
    let Some(head) = directory.head_of(&name) else {
        return None;
    };
    match hints.some_pass(directory.signals(head), direction) {
        Ok(true) => Some(head),
        Ok(false) => None,
        Err(_) => {
            reader.spend();
            None
        }
    }
}

/// The number of the head that stands at the place, whatever passes it.
pub fn find_port(reader: &mut Reader, directory: &Directory) -> Option<u32>
    requires { IsDirectory directory.now }
    ensures still { Still reader.old reader.new }
    ensures found { Finds (grammar.named_port directory.now.ports.now) directory.now.ports.now
        reader.old result reader.new }
{
    let Some(name) = reader.name_here() else {
        return None;
    };
    directory.head_of(&name)
}

/// The number of the signal that stands at the place and passes in this direction.
pub fn find_signal(
    reader: &mut Reader,
    signals: &[Signal],
    hints: &mut Hints,
    direction: Direction,
) -> Option<u32>
    requires { HaveDifferentNames signal_name signals.now }
    ensures still { Still reader.old reader.new }
    ensures found { Finds (grammar.signal formats.Complete direction) signals.now
        reader.old result reader.new }
{
    let Some(name) = reader.name_here() else {
        return None;
    };
    match hints.number_of(signals, &name) {
        Ok(Some(number)) => {
            if passes_at(signals, number, direction) {
                Some(number)
            } else {
                None
            }
        }
        Ok(None) => None,
        Err(_) => {
            reader.spend();
            None
        }
    }
}
