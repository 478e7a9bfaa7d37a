ghost use Rattle.std.specs.Prelude.{◌≡◌, ℕ, ◌+◌, ◌-◌, ◌^◌, ◌<◌, ◌≤◌, ◌↔◌, List, [], ◌∷◌, Option, length, take, drop, map, min, IfOk, IsErrOf, Ok, vec_len, slice_set, slice_index, IfSome, IfNone, string_bytes, if◌then◌else◌, is_err, OnErr};
ghost use Rattle.std.specs.Option.{ForSome};
ghost use Rattle.bt_base.specs.File.{place_of, bytes_at, count_at, is_counted_with};
ghost use Rattle.bt_base.specs.Ask.{given_by};
ghost use Rattle.bt_base.specs.Shelf.{TellsTheSame, NoneFalls, Rose, Told, Gives, risen};

use crate::trail::Trail;
use crate::{NoFetch, Shelf, Want};
use std::alloc::Global;

/// Files in memory, of which chosen calls fail.
///
/// It tells its bytes. Of two files of one name the first is meant. It keeps a count of faults for each
/// file, and one for all names that aren't there.
#[derive(Debug, Drop)]
pub struct MemoryShelf {
    files: Vec<(String, Vec<u8>)>,
    counts: Vec<u64>,
    missing: u64,
    fail: Vec<u64>,
    calls: u64,
    trail: Trail,
    ghost counted: { vec_len counts ≡ vec_len files },
}

/// The place of the first file of a name.
fn place_of(files: &[(String, Vec<u8>)], name: &str) -> Option<usize>
    ensures place { result ≡ place_of files.now name.now }
    ensures within { IfSome result (λ place. place < length files.now) }
{
    files.iter().position(|file| file.0.as_str() == name)
}

/// Copies the bytes from `at` on to the front of `into`, as many as both allow.
fn copy_from(bytes: &[u8], at: u64, into: &mut [u8]) -> usize
    ensures count { result ≡ min (length into.old) (length bytes.now - at) }
    ensures front { take result into.new ≡ take result (drop at bytes.now) }
{
    let start = bytes.len().min(at as usize);
    let rest = &bytes[start..];
    let count = into.len().min(rest.len());
    into[..count].copy_from_slice(&rest[..count]);
    count
}

/// Counts a fault of the file at a place, or of a name that isn't there.
fn count_fault(counts: &mut Vec<u64>, missing: &mut u64, place: Option<usize>)
    requires { ForSome place (λ p. p < vec_len counts.old) }
    ensures len { vec_len counts.new ≡ vec_len counts.old }
    ensures grown { (q : Option ℕ) → count_at counts.old.items missing.old q ≤ count_at counts.new.items missing.new q }
    ensures counts { (q : Option ℕ) → count_at counts.new.items missing.new q
        ≡ (if is_counted_with q place then risen (count_at counts.old.items missing.old q) else count_at counts.old.items missing.old q) }
{
    match place {
        Some(place) => counts[place] = counts[place].saturating_add(1),
        None => *missing = missing.saturating_add(1),
    }
}

impl MemoryShelf {
    ghost use Rattle.bt_base.specs.MemoryShelf.{told_of, faults_of, calls_of, fails_of, asked_of};

    /// A shelf of these files, whose calls of `fetch` with the numbers in `fail`, from 0, are faults.
    pub fn new(
        alloc: Global,
        files: Vec<(String, Vec<u8>)>,
        fail: Vec<u64>,
    ) -> Result<MemoryShelf, Want>
        ensures told { IfOk result (λ shelf. (name : List ℕ) → told_of shelf name ≡ bytes_at files.items (place_of files.items name)) }
        ensures faults { IfOk result (λ shelf. (name : List ℕ) → faults_of shelf name ≡ 0) }
        ensures fails { IfOk result (λ shelf. fails_of shelf ≡ fail.items) }
        ensures calls { IfOk result (λ shelf. calls_of shelf ≡ 0) }
        ensures asked { IfOk result (λ shelf. asked_of shelf ≡ []) }
    {
        let counts = vec![in alloc; 0u64; files.len()]?;
        Ok(MemoryShelf {
            files,
            counts,
            missing: 0,
            fail,
            calls: 0,
            trail: Trail::new(),
        })
    }
}

impl Shelf for MemoryShelf {
    ghost use Rattle.bt_base.specs.MemoryShelf.{told_of, faults_of, asked_of, answer_of, next_call, calls_of, fails_of, faults_after};

    ghost told = { told_of };

    ghost faults = { faults_of };

    ghost asked = { asked_of };

    /// Fails exactly where its number is to fail or the name isn't there; else it gives as many bytes as
    /// `into` and the rest of the file allow. It never wants memory.
    fn fetch(&mut self, name: &str, at: u64, into: &mut [u8]) -> Result<usize, NoFetch>
        ensures same { TellsTheSame (told_of self.old) (told_of self.new) }
        ensures asked { asked_of self.new ≡ (name.now, at, length into.old, given_by result) ∷ asked_of self.old }
        ensures counts { NoneFalls (faults_of self.old) (faults_of self.new) }
        ensures within { IfOk result (λ n. n ≤ length into.old) }
        ensures given { IfOk result (λ n. Told (told_of self.old) name.now (λ bytes. Gives bytes at into.new n)) }
        ensures failed { IsErrOf result NoFetch.Failed → Rose (faults_of self.old name.now) (faults_of self.new name.now) }
        ensures unchanged { OnErr result (into.new ≡ into.old) }
        ensures empty { into.old ≡ [] → (result ≡ Ok 0) × (faults_of self.new ≡ faults_of self.old) }

        ensures answer { result ≡ answer_of self.old name.now at (length into.old) }
        ensures faults { (other : List ℕ) → faults_of self.new other ≡ faults_after self.old name.now (is_err result) other }
        ensures calls { calls_of self.new ≡ next_call (calls_of self.old) (length into.old) }
        ensures fails { fails_of self.new ≡ fails_of self.old }
    {
        if into.is_empty() {
            self.trail.note(&[at, 0, 0], name.as_bytes());
            return Ok(0);
        }
        let number = self.calls;
        self.calls = number.saturating_add(1);
        let place = place_of(&self.files, name);
        let room = into.len() as u64;
        if self.fail.contains(&number) {
            self.trail.note(&[at, room, 0], name.as_bytes());
            count_fault(&mut self.counts, &mut self.missing, place);
            return Err(NoFetch::Failed);
        }
        match place {
            Some(place) => {
                let count = copy_from(&self.files[place].1, at, into);
                self.trail.note(&[at, room, count as u64], name.as_bytes());
                Ok(count)
            }
            None => {
                self.trail.note(&[at, room, 0], name.as_bytes());
                count_fault(&mut self.counts, &mut self.missing, None);
                Err(NoFetch::Failed)
            }
        }
    }
}
