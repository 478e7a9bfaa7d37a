ghost use Rattle.std.specs.Prelude.{◌≡◌, ℕ, ◌<◌, ◌≤◌, length, take, IfErr, OnOk, OnErr};
ghost use Rattle.bt_base.specs.Shelf.{Rose};
ghost use Rattle.bt_base.specs.Sink.{Appended};

use crate::Sink;
use thiserror::Error;

/// A text that was written in part: its first `written` bytes.
#[derive(Clone, Copy, Debug, PartialEq, Eq, Error)]
#[error("only {written} bytes were written")]
pub struct Unwritten {
    pub written: u64,
}

/// Writes the whole text. It fails only where a write failed in this call, and then the first `written`
/// bytes, which are not all, were appended.
pub fn write_all<K: Sink>(sink: &mut K, bytes: &[u8]) -> Result<(), Unwritten>
    ensures counts { K.faults sink.old ≤ K.faults sink.new }
    ensures whole { OnOk result (Appended (K.told sink.old) (K.told sink.new) bytes.now) }
    ensures part { IfErr result (λ u. Appended (K.told sink.old) (K.told sink.new) (take u.written bytes.now)) }
    ensures less { IfErr result (λ u. u.written < length bytes.now) }
    ensures fault { OnErr result (Rose (K.faults sink.old) (K.faults sink.new)) }
{
    let mut written = 0;
    while written < bytes.len() {
        match sink.put(&bytes[written..]) {
            Ok(count) => written += count,
            Err(_) => {
                return Err(Unwritten {
                    written: written as u64,
                });
            }
        }
    }
    Ok(())
}
