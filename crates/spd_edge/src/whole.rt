//! Reading all of a source, and writing all of some bytes.
ghost use Rattle.std.specs.Prelude.{◌≡◌, ◌≢◌, ℕ, ◌+◌, ◌<◌, ◌≤◌, length, take, vec_len, IfOk, IfErr, OnOk, OnErr};
ghost use Rattle.spd_edge.specs.Counts.{Rose};
ghost use Rattle.spd_edge.specs.Told.{Gave, GaveCount, IsAtEnd, Took};

use crate::outside::{Failed, ReadAll, Sink, Source};
use std::alloc::Global;

/// How many bytes one read asks for at most.
const CHUNK: usize = 16384;

/// One read into the front of `chunk`, of at most `most` bytes.
fn read_at_most<S: Source>(s: &mut S, chunk: &mut [u8], most: usize) -> Result<usize, Failed>
    ensures within { IfOk result (λ n. n ≤ length chunk.old) }
    ensures at_most { IfOk result (λ n. n ≤ most) }
    ensures gave { IfOk result (λ n. Gave (S.left s.old) (take n chunk.new) (S.left s.new)) }
    ensures end { IfOk result (λ n. n ≡ 0 → 0 < length chunk.old → 0 < most → IsAtEnd (S.left s.new)) }
    ensures ok { OnOk result (S.faults s.new ≡ S.faults s.old) }
    ensures failed { OnErr result (Rose (S.faults s.old) (S.faults s.new)) }
    ensures failed_gave_nothing { OnErr result (S.left s.new ≡ S.left s.old) }
    ensures never_falls { S.faults s.old ≤ S.faults s.new }
    ensures named { S.name s.new ≡ S.name s.old }
{
    if most < chunk.len() {
        s.read(&mut chunk[..most])
    } else {
        s.read(chunk)
    }
}

/// All bytes that a source has left, where they are at most `limit`. It stops reading at the byte
/// past the limit.
///
/// # Errors
///
/// `Fault` where a read failed, `TooLong` where there are more than `limit` bytes, and `Memory`.
pub fn read_all<S: Source>(alloc: Global, s: &mut S, limit: usize) -> Result<Vec<u8>, ReadAll>
    ensures all { IfOk result (λ bytes. Gave (S.left s.old) bytes.items (S.left s.new)) }
    ensures end { OnOk result (IsAtEnd (S.left s.new)) }
    ensures within { IfOk result (λ bytes. vec_len bytes ≤ limit) }

    ensures too_long { result ≡ Err ReadAll.TooLong → GaveCount (S.left s.old) (limit + 1) (S.left s.new) }
    ensures other_errors { IfErr result (λ e. e ≢ ReadAll.TooLong → (n : ℕ) × (n ≤ limit) × GaveCount (S.left s.old) n (S.left s.new)) }

    ensures fault { result ≡ Err ReadAll.Fault → Rose (S.faults s.old) (S.faults s.new) }
    ensures no_fault { result ≢ Err ReadAll.Fault → S.faults s.new ≡ S.faults s.old }
    ensures never_falls { S.faults s.old ≤ S.faults s.new }
    ensures named { S.name s.new ≡ S.name s.old }
{
    let mut bytes = Vec::new(alloc);
    let mut chunk = [0u8; CHUNK];
    loop {
        let room = limit - bytes.len();
        let n = read_at_most(s, &mut chunk, room.saturating_add(1))?;
        if n == 0 {
            return Ok(bytes);
        }
        if n > room {
            return Err(ReadAll::TooLong);
        }
        bytes.extend_from_slice(&chunk[..n])?;
    }
}

/// Writes all of `bytes`.
///
/// # Errors
///
/// `Failed` where a write failed; the sink then took less than all of them.
pub fn write_all_of<K: Sink>(k: &mut K, bytes: &[u8]) -> Result<(), Failed>
    ensures all { OnOk result (Took (K.taken k.old) bytes.now (K.taken k.new)) }
    ensures ok { OnOk result (K.faults k.new ≡ K.faults k.old) }
    ensures prefix { OnErr result ((n : ℕ) × (n < length bytes.now) × Took (K.taken k.old) (take n bytes.now) (K.taken k.new)) }
    ensures failed { OnErr result (Rose (K.faults k.old) (K.faults k.new)) }
    ensures never_falls { K.faults k.old ≤ K.faults k.new }
    ensures named { K.name k.new ≡ K.name k.old }
{
    let mut done = 0;
    while done < bytes.len() {
        done += k.write(&bytes[done..])?;
    }
    Ok(())
}
