//! Sets, written.
ghost use Rattle.std.specs.Prelude.{◌≡◌, ◌++◌, OnOk, codes};
ghost use Rattle.std.specs.List.{join_by};
ghost use Rattle.text_values.specs.WrittenOrdinals.{ordinal_text};
ghost use Rattle.text_values.specs.WrittenValues.{set_text};

use crate::written_lists::append_separator;
use crate::written_ordinals::append_ordinal;
use est_syntax::kind::Kind;
use std::alloc::AllocError;

/// Adds a set over a base, by its members in ascending order.
pub fn append_set(text: &mut Vec<u8>, base: &Kind, members: &[i32]) -> Result<(), AllocError>
    ensures { OnOk result (text.new.items ≡ text.old.items ++ set_text base.now members.now) }
{
    text.extend_from_slice(b"[")?;
    append_members(text, base, members)?;
    text.extend_from_slice(b"]")
}

// Adds the members.
fn append_members(text: &mut Vec<u8>, base: &Kind, members: &[i32]) -> Result<(), AllocError>
    ensures { OnOk result (text.new.items
        ≡ text.old.items ++ join_by (ordinal_text base.now) (codes ", ") members.now) }
{
    for i in 0..members.len() {
        append_separator(text, i)?;
        append_ordinal(text, base, members[i])?;
    }
    Ok(())
}
