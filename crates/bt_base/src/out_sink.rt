ghost use Rattle.std.specs.Prelude.{◌≡◌, ℕ, ◌<◌, ◌≤◌, List, [], Option, None, Ok, IfOk, OnErr, length, take, is_err, if◌then◌else◌};
ghost use Rattle.bt_base.specs.OutSink.{faults_of};
ghost use Rattle.bt_base.specs.Shelf.{Rose, risen};
ghost use Rattle.bt_base.specs.Sink.{Appended};

use crate::{Failed, Sink};
use std::io::{self, Write};

/// The standard output.
///
/// This is part of the trusted edge: it tells no bytes. It takes no memory of its own.
#[derive(Debug, Drop)]
pub struct OutSink<R: Print + Drop> {
    rt: R,
    faults: u64,
}

impl<R: Print + Drop> OutSink<R> {
    /// The standard output of this runtime, with no fault so far.
    pub fn new(rt: R) -> OutSink<R>
        ensures { faults_of result ≡ 0 }
    {
        OutSink { rt, faults: 0 }
    }
}

impl<R: Print + Drop> Sink for OutSink<R> {
    ghost told = { λ _. None };

    ghost faults = { faults_of };

    /// Counts a fault at each error, and where the system takes no byte of a piece that has some.
    fn put(&mut self, piece: &[u8]) -> Result<usize, Failed>
        ensures counts { faults_of self.old ≤ faults_of self.new }
        ensures within { IfOk result (λ n. n ≤ length piece.now) }
        ensures takes { IfOk result (λ n. 0 < length piece.now → 0 < n) }
        ensures appended { IfOk result (λ n. Appended None None (take n piece.now)) }
        ensures unchanged { OnErr result (◌≡◌ {A = Option (List ℕ)} None None) }
        ensures failed { OnErr result (Rose (faults_of self.old) (faults_of self.new)) }
        ensures empty { piece.now ≡ [] → (result ≡ Ok 0) × (faults_of self.new ≡ faults_of self.old) }

        ensures faults { faults_of self.new ≡ (if is_err result then risen (faults_of self.old) else faults_of self.old) }
    {
        if piece.is_empty() {
            return Ok(0);
        }
        match io::writer(&self.rt).write(piece) {
            Ok(count) if count > 0 => Ok(count),
            _ => {
                self.faults = self.faults.saturating_add(1);
                Err(Failed)
            }
        }
    }
}
