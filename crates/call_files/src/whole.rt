//! Whole files and whole outputs.

ghost use Rattle.std.specs.Prelude.{◌≡◌, ◌+◌, ◌≤◌, List, [], ◌∷◌, ◌++◌, ℕ, IfSome, OnOk, OnErr};
ghost use Rattle.call_files.specs.FaultCounts.{Rose, GoesOn, AllGoOn};
ghost use Rattle.call_files.specs.Pieces.{SameTold, appended, IsPrefix};
ghost use Rattle.call_files.specs.Wholes.{IsWhole, IsTakenWhole, AnswersFaults};

use crate::shelf::Shelf;
use crate::writing::Sink;
use std::alloc::{AllocError, Global};
use thiserror::Error;

/// Why a file was not read.
#[derive(Debug, Drop, Error)]
pub enum ReadError {
    #[error("the file could not be read")]
    Failed,
    #[error("the file is too long")]
    TooLong,
    #[error(transparent)]
    Memory(AllocError),
}

// How many bytes are asked for at once.
const PIECE: usize = 16384;

/// Reads the file of this name to its end. A file of more than `limit` bytes is refused once
/// `limit` + 1 bytes were taken, and the rest is left.
pub fn read_whole<S: Shelf>(
    alloc: Global,
    shelf: &mut S,
    name: &str,
    limit: u32,
) -> Result<Vec<u8>, ReadError>
    ensures told { SameTold (S.told shelf.old) (S.told shelf.new) }
    ensures counts { AllGoOn (S.faults shelf.old) (S.faults shelf.new) }
    ensures whole { IfSome (S.told shelf.old name.now) (λ bytes. IsWhole limit bytes result) }
    ensures taken { IsTakenWhole limit (S.taken shelf.new) (S.ended shelf.new) result }
    ensures faults { AnswersFaults name.now (S.faults shelf.old) (S.faults shelf.new) result }

    // Its file alone is started, and once.
    ensures started { S.started shelf.new ≡ S.started shelf.old ++ name.now ∷ [] }
    ensures asked { S.asked shelf.new ≤ limit + 2 }
{
    let limit = limit as usize;
    let mut bytes = Vec::new(alloc);
    let mut piece = [0u8; PIECE];
    shelf.start(name).map_err(|_| ReadError::Failed)?;
    // Each turn takes a byte at least, so there are at most `limit` + 2.
    'turns: for _ in 0..limit + 2 {
        let asked = PIECE.min(limit + 1 - bytes.len());
        match shelf.more(&mut piece[..asked]) {
            Ok(0) => return Ok(bytes),
            Ok(n) => {
                if let Err(error) = bytes.extend_from_slice(&piece[..n]) {
                    return Err(ReadError::Memory(error));
                }
            }
            Err(_) => return Err(ReadError::Failed),
        }
        if bytes.len() > limit {
            return Err(ReadError::TooLong);
        }
    }
    unreachable!()
}

/// Writes all the bytes.
pub fn write_whole<K: Sink>(sink: &mut K, bytes: &[u8]) -> Result<(), crate::Failed>
    ensures count { GoesOn (K.faults sink.old) (K.faults sink.new) }
    ensures quiet { OnOk result (K.faults sink.new ≡ K.faults sink.old) }
    ensures ok { OnOk result (K.written sink.new ≡ appended (K.written sink.old) bytes.now) }
    ensures err { OnErr result
        ((part : List ℕ) × IsPrefix part bytes.now
        × (K.written sink.new ≡ appended (K.written sink.old) part)) }
    ensures failed { OnErr result (Rose (K.faults sink.old) (K.faults sink.new)) }
{
    let mut done = 0;
    while done < bytes.len() {
        done += sink.put(&bytes[done..])?;
    }
    Ok(())
}
