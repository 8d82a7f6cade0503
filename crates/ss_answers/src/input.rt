//! Reading all of a file, at once or part by part.
ghost use Rattle.std.specs.Prelude.{◌≡◌, ◌<◌, ◌^◌, ◌||◌, false, IfOk, IfErr, OnOk, List, ℕ, length, vec_len};
ghost use Rattle.ss_frame.specs.Watched.{has_failed, inner_of};
ghost use Rattle.ss_answers.specs.Input.{GivesAll, GivesPart, IsInputFault, IsReadOrMemory, TakesSome, failed_input};

use ss_frame::Watched;
use std::alloc::{AllocError, Global};
use std::fs::OpenFile;
use std::io;
use std::io::Read;

/// The most octets that one read asks for.
pub const CHUNK: usize = 65_536;

/// Why not all of a file was read.
#[derive(Clone, Copy, Debug)]
pub enum InputFault {
    /// A read failed.
    Read,
    /// There are more octets than were allowed.
    TooBig,
    /// Memory ran out.
    Memory,
}

/// How many octets a file has, where that is known.
pub fn known_length<F: OpenFile>(opened: &io::Result<F>) -> Option<u64> {
    let Ok(file) = opened else {
        return None;
    };
    match file.metadata() {
        Ok(metadata) => Some(metadata.len()),
        Err(_) => None,
    }
}

/// Reads all that a reader gives, which is at most `max` octets. It takes at most one octet more.
///
/// # Errors
///
/// `Read` where a read failed, an interrupted one too; `TooBig` where there are more than `max` octets; `Memory`.
#[inline(never)]
pub fn read_all<R: Read>(
    alloc: Global,
    reader: &mut Watched<R>,
    max: u32,
) -> Result<Vec<u8>, InputFault>
    requires { has_failed reader.old ≡ false }
    ensures ok { IfOk result (λ text.
        GivesAll (R.remaining (inner_of reader.old)) (R.remaining (inner_of reader.new)) max text.items) }
    ensures err { IfErr result (λ fault.
        IsInputFault (R.remaining (inner_of reader.old)) (R.remaining (inner_of reader.new)) max fault) }
    ensures failed { has_failed reader.new ≡ failed_input result }
{
    let limit = max as usize;
    let mut text = Vec::new(alloc);
    let Ok(mut chunk) = zeros(alloc, CHUNK) else {
        return Err(InputFault::Memory);
    };
    loop {
        let most = (limit - text.len() + 1).min(CHUNK);
        let count = read_some(reader, &mut chunk[..most], &mut text)?;
        if count == 0 {
            return Ok(text);
        }
        if text.len() > limit {
            return Err(InputFault::TooBig);
        }
    }
}

/// Takes the rest of what a reader gives, which is at most `max` octets, and keeps none of it. It takes at most one
/// octet more. The reads go through a chunk of some octets.
///
/// # Errors
///
/// `Read` where a read failed, an interrupted one too; `TooBig` where there are more than `max` octets.
pub fn skip_rest<R: Read>(
    reader: &mut Watched<R>,
    chunk: &mut [u8],
    max: usize,
) -> Result<(), InputFault>
    requires failed { has_failed reader.old ≡ false }
    requires some { 0 < length chunk.old }
    requires max { max < 2 ^ 32 }
    ensures ok { OnOk result ((rest : List ℕ)
        × GivesAll (R.remaining (inner_of reader.old)) (R.remaining (inner_of reader.new)) max rest) }
    ensures err { IfErr result (λ fault.
        IsInputFault (R.remaining (inner_of reader.old)) (R.remaining (inner_of reader.new)) max fault) }
    ensures failed { has_failed reader.new ≡ failed_input result }
{
    let mut left = max;
    loop {
        let most = (left + 1).min(chunk.len());
        let count = read_part(reader, &mut chunk[..most])?;
        if count == 0 {
            return Ok(());
        }
        if count > left {
            return Err(InputFault::TooBig);
        }
        left -= count;
    }
}

/// Room for so many octets.
pub fn zeros(alloc: Global, count: usize) -> Result<Vec<u8>, AllocError>
    ensures { IfOk result (λ octets. vec_len octets ≡ count) }
{
    vec![in alloc; 0u8; count]
}

/// One read through a chunk of some octets, to the end of the text.
fn read_some<R: Read>(
    reader: &mut Watched<R>,
    chunk: &mut [u8],
    text: &mut Vec<u8>,
) -> Result<usize, InputFault>
    requires { 0 < length chunk.old }
    ensures ok { IfOk result (λ count.
        TakesSome (R.remaining (inner_of reader.old)) (R.remaining (inner_of reader.new)) text.old.items text.new.items
        (length chunk.old) count) }
    ensures err { IfErr result (λ fault. IsReadOrMemory fault) }
    ensures failed { has_failed reader.new ≡ (has_failed reader.old || failed_input result) }
{
    let count = read_part(reader, chunk)?;
    match text.extend_from_slice(&chunk[..count]) {
        Ok(()) => Ok(count),
        Err(_) => Err(InputFault::Memory),
    }
}

/// One read into a chunk of some octets.
pub fn read_part<R: Read>(reader: &mut Watched<R>, chunk: &mut [u8]) -> Result<usize, InputFault>
    requires { 0 < length chunk.old }
    ensures ok { IfOk result (λ count.
        GivesPart (R.remaining (inner_of reader.old)) (R.remaining (inner_of reader.new)) chunk.new count) }
    ensures err { IfErr result (λ fault. fault ≡ InputFault.Read) }
    ensures failed { has_failed reader.new ≡ (has_failed reader.old || failed_input result) }
{
    match reader.read(chunk) {
        Ok(count) => Ok(count),
        Err(_) => Err(InputFault::Read),
    }
}
