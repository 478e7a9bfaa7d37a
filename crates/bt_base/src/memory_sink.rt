ghost use Rattle.std.specs.Prelude.{◌≡◌, ℕ, ◌<◌, ◌≤◌, List, [], Some, length, take, IfOk, OnErr, Ok, vec_len, vec_capacity, is_err, if◌then◌else◌};
ghost use Rattle.bt_base.specs.Shelf.{Rose, risen};
ghost use Rattle.bt_base.specs.Sink.{Appended};

use crate::{Failed, Sink, Want};
use std::alloc::Global;

/// A text in memory, of bounded room, of which chosen writes fail.
///
/// It tells its bytes.
#[derive(Debug, Drop)]
pub struct MemorySink {
    bytes: Vec<u8>,
    room: usize,
    most: usize,
    fail: Vec<u64>,
    calls: u64,
    faults: u64,
    ghost within: { vec_len bytes ≤ room },
    ghost reserved: { room ≤ vec_capacity bytes },
    ghost takes: { 0 < most },
}

impl MemorySink {
    ghost use Rattle.bt_base.specs.MemorySink.{bytes_of, faults_of, room_of, most_of, calls_of, fails_of};

    /// An empty sink with room for `room` bytes, of which one `put` takes at most `most`; the calls of
    /// `put` with the numbers in `fail`, from 0, are faults.
    pub fn new(alloc: Global, room: usize, most: usize, fail: Vec<u64>) -> Result<MemorySink, Want>
        requires { 0 < most }
        ensures bytes { IfOk result (λ sink. bytes_of sink ≡ []) }
        ensures faults { IfOk result (λ sink. faults_of sink ≡ 0) }
        ensures limits { IfOk result (λ sink. (room_of sink ≡ room) × (most_of sink ≡ most)) }
        ensures fails { IfOk result (λ sink. (fails_of sink ≡ fail.items) × (calls_of sink ≡ 0)) }
    {
        let bytes = Vec::with_capacity(alloc, room)?;
        Ok(MemorySink {
            bytes,
            room,
            most,
            fail,
            calls: 0,
            faults: 0,
        })
    }

    /// The bytes written so far.
    pub fn bytes(&self) -> &[u8]
        ensures { result.now ≡ bytes_of self.now }
    {
        &self.bytes
    }
}

impl Sink for MemorySink {
    ghost use Rattle.std.specs.Prelude.{Some};
    ghost use Rattle.bt_base.specs.MemorySink.{bytes_of, faults_of, room_of, most_of, calls_of, fails_of, answer_of, next_call};

    ghost told = { λ sink. Some (bytes_of sink) };

    ghost faults = { faults_of };

    /// Fails exactly where its number is to fail or no room is left; else it takes as many bytes as the
    /// piece has, one call takes and the room allows.
    fn put(&mut self, piece: &[u8]) -> Result<usize, Failed>
        ensures counts { faults_of self.old ≤ faults_of self.new }
        ensures within { IfOk result (λ n. n ≤ length piece.now) }
        ensures takes { IfOk result (λ n. 0 < length piece.now → 0 < n) }
        ensures appended { IfOk result (λ n. Appended (Some (bytes_of self.old)) (Some (bytes_of self.new)) (take n piece.now)) }
        ensures unchanged { OnErr result (Some (bytes_of self.new) ≡ Some (bytes_of self.old)) }
        ensures failed { OnErr result (Rose (faults_of self.old) (faults_of self.new)) }
        ensures empty { piece.now ≡ [] → (result ≡ Ok 0) × (faults_of self.new ≡ faults_of self.old) }

        ensures answer { result ≡ answer_of self.old (length piece.now) }
        ensures faults { faults_of self.new ≡ (if is_err result then risen (faults_of self.old) else faults_of self.old) }
        ensures calls { calls_of self.new ≡ next_call (calls_of self.old) (length piece.now) }
        ensures same { (fails_of self.new ≡ fails_of self.old) × (room_of self.new ≡ room_of self.old) × (most_of self.new ≡ most_of self.old) }
    {
        if piece.is_empty() {
            return Ok(0);
        }
        let number = self.calls;
        self.calls = number.saturating_add(1);
        let left = self.room - self.bytes.len();
        if self.fail.contains(&number) || left == 0 {
            self.faults = self.faults.saturating_add(1);
            return Err(Failed);
        }
        let count = piece.len().min(self.most).min(left);
        self.bytes.extend_from_slice(&piece[..count]).unwrap();
        Ok(count)
    }
}
