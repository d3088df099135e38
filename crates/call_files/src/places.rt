//! The list of files of a shelf in memory.

ghost use Rattle.std.specs.Prelude.{◌≡◌, ◌≢◌, ◌<◌, None, Some, length, vec_len, OnOk, OnErr};
ghost use Rattle.std.specs.List.{position};
ghost use Rattle.std.specs.Str.{bytes_eq};
ghost use Rattle.std.specs.String.{string_bytes};
ghost use Rattle.call_files.specs.MemoryFiles.{RaisesAt, ReplacesAt, AddsFile, place_of, bytes_at};

use crate::memory_file::MemFile;
use std::alloc::AllocError;

/// Where the first file of this name stands.
pub fn first_named(files: &Vec<MemFile>, name: &str) -> Option<usize>
    ensures { result ≡ position
        (λ file. bytes_eq (string_bytes file.name) name.now) files.now.items }
{
    files.iter().position(|file| file.name.as_str() == name)
}

/// The place, unless it is this one.
pub fn without_place(at: Option<usize>, place: usize) -> Option<usize>
    ensures gone { at ≡ Some place → result ≡ None }
    ensures stays { at ≢ Some place → result ≡ at }
{
    match at {
        Some(other) if other == place => None,
        _ => at,
    }
}

/// The bytes of the file at this place.
pub fn bytes_of(files: &Vec<MemFile>, place: usize) -> &[u8]
    requires { place < vec_len files.now }
    ensures { bytes_at files.now.items place ≡ Some result.now }
{
    files[place].bytes.as_slice()
}

/// Counts one fault of the file at this place.
pub fn raise_at(files: &mut Vec<MemFile>, place: usize)
    requires { place < vec_len files.old }
    ensures { RaisesAt files.old.items place files.new.items }
{
    files[place].faults.raise();
}

/// Gives the file at this place other bytes.
pub fn replace_at(files: &mut Vec<MemFile>, place: usize, bytes: Vec<u8>)
    requires { place < vec_len files.old }
    ensures { ReplacesAt files.old.items place bytes.items files.new.items }
{
    files[place].bytes = bytes;
}

/// Puts a file after the others, where none has its name.
pub fn add_last(files: &mut Vec<MemFile>, file: MemFile) -> Result<(), AllocError>
    requires { place_of files.old.items (string_bytes file.name) ≡ length files.old.items }
    ensures ok { OnOk result (AddsFile files.old.items file files.new.items) }
    ensures err { OnErr result (files.new.items ≡ files.old.items) }
{
    files.push(file)?;
    Ok(())
}
