//! The text of one trace for each port.
ghost use Rattle.std.specs.Prelude.{◌≤◌, length, IfOk};
ghost use Rattle.mean_ports.specs.Merges.{AreAllowedLists};
ghost use Rattle.call_files.specs.Files.{limit_of};
ghost use Rattle.call_files.specs.Seen.{seen, shelved};
ghost use Rattle.call_files.specs.FileTexts.{OfLists, RefusesLists};
ghost use Rattle.call_files.specs.Reads.{ReadsFile, ReadsText};

use crate::Shelf;
use crate::diagnostic::refuse;
use crate::file::File;
use crate::reading::read_text;
use crate::stop::Stop;
use crate::trace::said_of;
use est_lexer::lex::lex;
use est_trace::est_check::Checked;
use est_trace::lists::read_ports;
use mean_ports::lists::PortLists;
use std::alloc::Global;

/// The lists of a specification in the file of this name, which is a trace's as to its limit and
/// what is said of it.
pub fn lists_in<S: Shelf>(
    alloc: Global,
    shelf: &mut S,
    name: &str,
    checked: &Checked,
) -> Result<PortLists, Stop>
    ensures allowed { IfOk result (AreAllowedLists checked.now) }
    ensures reads { ReadsFile File.Trace name.now
        (OfLists checked.now) (RefusesLists checked.now) (seen
        (shelved (S.told shelf.old) (S.faults shelf.old) (S.started shelf.old) (S.taken shelf.old))
        (shelved (S.told shelf.new) (S.faults shelf.new) (S.started shelf.new) (S.taken shelf.new)))
        result }
{
    let text = read_text(alloc, shelf, name, File::Trace)?;
    lists_of(alloc, text.as_slice(), checked)
}

// The lists of a specification that a text within its limit is.
fn lists_of(alloc: Global, text: &[u8], checked: &Checked) -> Result<PortLists, Stop>
    requires { length text.now ≤ limit_of File.Trace }
    ensures allowed { IfOk result (AreAllowedLists checked.now) }
    ensures reads { ReadsText File.Trace
        (OfLists checked.now) (RefusesLists checked.now) text.now result }
{
    let tokens = lex(alloc, text)?;
    match read_ports(alloc, checked, &tokens) {
        Ok(lists) => Ok(lists),
        Err(error) => Err(refuse(alloc, File::Trace, &tokens, said_of(error))),
    }
}
