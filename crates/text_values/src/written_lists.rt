//! Lists with commas between their items.
ghost use Rattle.std.specs.Prelude.{◌≡◌, ◌++◌, OnOk};
ghost use Rattle.text_values.specs.WrittenLists.{separator};

use std::alloc::AllocError;

/// Adds what stands before an item of a list that comes after so many others.
pub fn append_separator(text: &mut Vec<u8>, before: usize) -> Result<(), AllocError>
    ensures { OnOk result (text.new.items ≡ text.old.items ++ separator before) }
{
    if before == 0 {
        return Ok(());
    }
    text.extend_from_slice(b", ")
}
