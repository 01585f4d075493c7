//! What a file has that was opened, whatever reader it is.
ghost use Rattle.std.specs.Prelude.{◌≡◌, ◌≤◌, ◌<◌, ◌↔◌, ◌⊎◌, ◌++◌, ◌+◌, Err, length, IfErr, IfOk, OnOk, IsErrOf};
ghost use Rattle.std.specs.IoError.{error_kind};
ghost use Rattle.std.specs.Io.KnownBytes.{IsAtEnd};
ghost use Rattle.mw_ports.specs.Readers.{Moves, ReadsAll, TakesMoreThan, TakesAtMost};

use crate::shelf::ShelfFault;
use mw_types::{Bytes, NoMemory};
use std::alloc::Global;
use std::io::{Error, ErrorKind, Read};

// How many bytes are asked for at once.
const PORTION: usize = 8192;

/// All bytes of the file that an open gave, or why there is none.
pub fn opened_bytes<F: Read + Drop>(
    alloc: Global,
    opened: Result<F, Error>,
    limit: u64,
) -> Result<Bytes, ShelfFault>
    ensures within { IfOk result (λ bytes. length bytes ≤ limit) }
    ensures told { IfOk opened (λ file. ReadsAll (F.remaining file) limit result) }

    // That the file is not there is no failure.
    ensures missing { IfErr opened (λ error.
        (result ≡ Err ShelfFault.Missing) ↔ (error_kind error ≡ ErrorKind.NotFound)) }
    ensures failed { IfErr opened (λ _.
        (result ≡ Err ShelfFault.Missing) ⊎ (result ≡ Err ShelfFault.Failed)) }
{
    match opened {
        Ok(mut file) => rest_of(alloc, &mut file, limit),
        Err(error) => Err(fault_of(&error)),
    }
}

// Why a file was not opened: that it is not there is no failure.
fn fault_of(error: &Error) -> ShelfFault
    ensures missing { (result ≡ ShelfFault.Missing) ↔ (error_kind error.now ≡ ErrorKind.NotFound) }
    ensures failed { (result ≡ ShelfFault.Missing) ⊎ (result ≡ ShelfFault.Failed) }
{
    if error.kind() == ErrorKind::NotFound {
        ShelfFault::Missing
    } else {
        ShelfFault::Failed
    }
}

// What the file has left, by no more than one byte above the limit.
fn rest_of<F: Read>(alloc: Global, file: &mut F, limit: u64) -> Result<Bytes, ShelfFault>
    ensures within { IfOk result (λ bytes. length bytes ≤ limit) }
    ensures told { ReadsAll (F.remaining file.old) limit result }
    ensures most { TakesAtMost (limit + 1) (F.remaining file.old) (F.remaining file.new) }
{
    let mut bytes = Vec::new(alloc);
    let mut portion = [0; PORTION];
    let mut left = limit;
    loop {
        let most = if left < PORTION as u64 {
            left as usize + 1
        } else {
            PORTION
        };
        let count = take_portion(file, &mut portion[..most], left, &mut bytes)?;
        if count == 0 {
            return Ok(Bytes::from_vec(bytes));
        }
        left -= count as u64;
    }
}

// Appends what one read gives, which must be at most `left` bytes, and answers how many it gave.
fn take_portion<F: Read>(
    file: &mut F,
    portion: &mut [u8],
    left: u64,
    bytes: &mut Vec<u8>,
) -> Result<usize, ShelfFault>
    requires some { 0 < length portion.old }
    requires one_above { length portion.old ≤ left + 1 }
    ensures within { IfOk result (λ count. count ≤ left) }
    ensures end { IfOk result (λ count. count ≡ 0 → IsAtEnd (F.remaining file.new)) }
    ensures moved { IfOk result
        (Moves (F.remaining file.old) (F.remaining file.new) bytes.old.items bytes.new.items) }
    ensures not_missing { IsErrOf result ShelfFault.Missing → ⊥ }
    ensures too_long { IsErrOf result ShelfFault.TooLong →
        TakesMoreThan left (F.remaining file.old) (F.remaining file.new) }
    ensures most { TakesAtMost (left + 1) (F.remaining file.old) (F.remaining file.new) }
{
    let count = match file.read(portion) {
        Ok(count) => count,
        Err(_) => return Err(ShelfFault::Failed),
    };
    if count as u64 > left {
        return Err(ShelfFault::TooLong);
    }
    append(bytes, &portion[..count])?;
    Ok(count)
}

// Appends these bytes.
fn append(bytes: &mut Vec<u8>, more: &[u8]) -> Result<(), NoMemory>
    ensures appended { OnOk result (bytes.new.items ≡ bytes.old.items ++ more.now) }
{
    bytes.extend_from_slice(more)?;
    Ok(())
}
