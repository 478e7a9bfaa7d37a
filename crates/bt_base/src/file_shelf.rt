ghost use Rattle.std.specs.Prelude.{◌≡◌, ℕ, ◌≤◌, List, [], ◌∷◌, None, Ok, IfOk, IsErrOf, length, is_err, if◌then◌else◌};
ghost use Rattle.bt_base.specs.FileShelf.{faults_of, asked_of};
ghost use Rattle.bt_base.specs.Ask.{given_by};
ghost use Rattle.bt_base.specs.Shelf.{TellsTheSame, NoneFalls, Rose, Told, Gives, risen};

use crate::trail::Trail;
use crate::{NoFetch, Shelf};
use std::fs;
use std::io::{self, ErrorKind, Read, Seek, SeekFrom};
use std::rt::Files;

/// The files of the system, by their paths.
///
/// This is part of the trusted edge: it tells no bytes, and its one count of faults stands for every name.
#[derive(Debug, Drop)]
pub struct FileShelf<R: Files + Drop> {
    rt: R,
    faults: u64,
    trail: Trail,
}

impl<R: Files + Drop> FileShelf<R> {
    /// The files of this runtime, with no fault so far.
    pub fn new(rt: R) -> FileShelf<R>
        ensures faults { faults_of result ≡ 0 }
        ensures asked { asked_of result ≡ [] }
    {
        FileShelf {
            rt,
            faults: 0,
            trail: Trail::new(),
        }
    }
}

/// Reads from a file at a place.
fn read_at<R: Files>(rt: &R, name: &str, at: u64, into: &mut [u8]) -> io::Result<usize>
    ensures { IfOk result (λ n. n ≤ length into.old) }
{
    let mut file = fs::open(rt, name)?;
    file.seek(SeekFrom::Start(at))?;
    file.read(into)
}

impl<R: Files + Drop> Shelf for FileShelf<R> {
    ghost told = { λ _ _. None };

    ghost faults = { λ shelf _. faults_of shelf };

    ghost asked = { asked_of };

    /// Counts a fault at each error, and answers `Want` where the system has no memory for it.
    fn fetch(&mut self, name: &str, at: u64, into: &mut [u8]) -> Result<usize, NoFetch>
        ensures same { TellsTheSame (λ _. None) (λ _. None) }
        ensures asked { asked_of self.new ≡ (name.now, at, length into.old, given_by result) ∷ asked_of self.old }
        ensures counts { NoneFalls (λ _. faults_of self.old) (λ _. faults_of self.new) }
        ensures within { IfOk result (λ n. n ≤ length into.old) }
        ensures given { IfOk result (λ n. Told (λ _. None) name.now (λ bytes. Gives bytes at into.new n)) }
        ensures failed { IsErrOf result NoFetch.Failed → Rose (faults_of self.old) (faults_of self.new) }
        ensures empty { into.old ≡ [] → (result ≡ Ok 0) × ◌≡◌ {A = List ℕ → ℕ} (λ _. faults_of self.new) (λ _. faults_of self.old) }

        ensures faults { faults_of self.new ≡ (if is_err result then risen (faults_of self.old) else faults_of self.old) }
    {
        if into.is_empty() {
            self.trail.note(&[at, 0, 0], name.as_bytes());
            return Ok(0);
        }
        let room = into.len() as u64;
        match read_at(&self.rt, name, at, into) {
            Ok(count) => {
                self.trail.note(&[at, room, count as u64], name.as_bytes());
                Ok(count)
            }
            Err(error) => {
                self.trail.note(&[at, room, 0], name.as_bytes());
                self.faults = self.faults.saturating_add(1);
                if error.kind() == ErrorKind::OutOfMemory {
                    Err(NoFetch::Want)
                } else {
                    Err(NoFetch::Failed)
                }
            }
        }
    }
}
