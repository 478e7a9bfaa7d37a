ghost use Rattle.std.specs.Prelude.{◌≡◌, ℕ, ◌<◌, ◌≤◌, List, length, IfOk, IsErrOf, vec_len, ◌∷◌, ◌++◌, ◌-◌, ◌+◌, take, drop, min, if◌then◌else◌};
ghost use Rattle.bt_base.specs.Ask.{IsReading, IsReadTo, NewestGaveNone, WasAsked};
ghost use Rattle.bt_base.specs.Shelf.{TellsTheSame, NoneFalls, Rose, Told};

use crate::{NoFetch, Shelf, Want};
use std::alloc::Global;
use thiserror::Error;

/// Why a whole file wasn't read.
#[derive(Clone, Copy, Debug, PartialEq, Eq, Error)]
pub enum ReadRefusal {
    /// A read failed.
    #[error("the read failed")]
    Fault,
    /// The file has more than `limit` bytes.
    #[error("more than {limit} bytes")]
    TooLong { limit: u64 },
    #[error("out of memory")]
    Want,
}

/// How many bytes are asked for at a time.
const PIECE: usize = 65536;

/// Reads the next piece behind `bytes`, at most up to one byte past the limit, and answers its length.
fn read_piece<F: Shelf>(
    shelf: &mut F,
    name: &str,
    limit: u64,
    piece: &mut [u8],
    bytes: &mut Vec<u8>,
) -> Result<usize, ReadRefusal>
    requires room { length piece.old ≡ PIECE }
    requires below { vec_len bytes.old ≤ limit }
    ensures same { TellsTheSame (F.told shelf.old) (F.told shelf.new) }
    ensures counts { NoneFalls (F.faults shelf.old) (F.faults shelf.new) }
    ensures asked { WasAsked name.now (vec_len bytes.old) (min (limit - vec_len bytes.old) 65535 + 1) (F.asked shelf.old) (F.asked shelf.new) }
    ensures within_room { IfOk result (λ n. n ≤ min (limit - vec_len bytes.old) 65535 + 1) }
    ensures gave { IfOk result (λ n. F.asked shelf.new ≡ (name.now, vec_len bytes.old, min (limit - vec_len bytes.old) 65535 + 1, n) ∷ F.asked shelf.old) }
    ensures grown { IfOk result (λ n. vec_len bytes.new ≡ vec_len bytes.old + n) }
    ensures given { IfOk result (λ n. Told (F.told shelf.old) name.now (λ told. bytes.new.items ≡ bytes.old.items ++ take n (drop (vec_len bytes.old) told))) }
    ensures end { IfOk result (λ n. Told (F.told shelf.old) name.now (λ told. n ≡ 0 → length told ≤ vec_len bytes.old)) }
    ensures fault { IsErrOf result ReadRefusal.Fault → Rose (F.faults shelf.old name.now) (F.faults shelf.new name.now) }
    ensures within { (l : ℕ) → IsErrOf result (ReadRefusal.TooLong l) → ⊥ }
{
    let at = bytes.len() as u64;
    let room = (limit - at).min(PIECE as u64 - 1) as usize + 1;
    match shelf.fetch(name, at, &mut piece[..room]) {
        Ok(count) => match bytes.extend_from_slice(&piece[..count]) {
            Ok(()) => Ok(count),
            Err(_) => Err(ReadRefusal::Want),
        },
        Err(NoFetch::Failed) => Err(ReadRefusal::Fault),
        Err(NoFetch::Want) => Err(ReadRefusal::Want),
    }
}

/// The whole of a file of at most `limit` bytes.
///
/// It is `Fault` only where a read of this name failed in this call, and `TooLong` only where the file is longer
/// than `limit`, of which `limit` + 1 bytes were given then; such a file may also be `Fault` or `Want`. It is `Ok`
/// only where the last read gave no byte. Nothing else is asked of the shelf than this name's bytes in order, each
/// once and up to `limit` + 1, and nothing after a read that gave none.
pub fn read_all<F: Shelf>(
    alloc: Global,
    shelf: &mut F,
    name: &str,
    limit: u64,
) -> Result<Vec<u8>, ReadRefusal>
    ensures same { TellsTheSame (F.told shelf.old) (F.told shelf.new) }
    ensures counts { NoneFalls (F.faults shelf.old) (F.faults shelf.new) }
    ensures asked { IsReading name.now limit (F.asked shelf.old) (F.asked shelf.new) }
    ensures gave { IfOk result (λ bytes. IsReadTo name.now limit (F.asked shelf.old) (F.asked shelf.new) (vec_len bytes)) }
    ensures end { IfOk result (λ _. NewestGaveNone (F.asked shelf.new)) }
    ensures whole { IfOk result (λ bytes. Told (F.told shelf.old) name.now (λ told. bytes.items ≡ told)) }
    ensures within { IfOk result (λ bytes. vec_len bytes ≤ limit) }
    ensures too_long { (l : ℕ) → IsErrOf result (ReadRefusal.TooLong l) →
        (l ≡ limit) × Told (F.told shelf.old) name.now (λ told. limit < length told) }
    ensures passed { (l : ℕ) → IsErrOf result (ReadRefusal.TooLong l) → IsReadTo name.now limit (F.asked shelf.old) (F.asked shelf.new) (limit + 1) }
    ensures fault { IsErrOf result ReadRefusal.Fault → Rose (F.faults shelf.old name.now) (F.faults shelf.new name.now) }
{
    let mut piece = match vec![in alloc; 0u8; PIECE] {
        Ok(piece) => piece,
        Err(_) => return Err(ReadRefusal::Want),
    };
    let mut bytes = Vec::new(alloc);
    while bytes.len() as u64 <= limit {
        let count = read_piece(shelf, name, limit, &mut piece, &mut bytes)?;
        if count == 0 {
            return Ok(bytes);
        }
    }
    Err(ReadRefusal::TooLong { limit })
}
