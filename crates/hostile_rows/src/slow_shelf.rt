ghost use Rattle.std.specs.Prelude.{◌<◌};

use bt_base::{MemoryShelf, NoFetch, Shelf};

/// Files in memory, of which one read gives at most so many bytes.
#[derive(Debug, Drop)]
pub struct SlowShelf {
    files: MemoryShelf,
    most: usize,
    ghost gives: { 0 < most },
}

impl SlowShelf {
    /// These files, of which one read gives at most `most` bytes.
    pub fn new(files: MemoryShelf, most: usize) -> SlowShelf
        requires { 0 < most }
    {
        SlowShelf { files, most }
    }
}

impl Shelf for SlowShelf {
    ghost use Rattle.hostile_rows.specs.SlowShelf.{slow_told, slow_faults, slow_asked};

    ghost told = { slow_told };

    ghost faults = { slow_faults };

    ghost asked = { slow_asked };

    fn fetch(&mut self, name: &str, at: u64, into: &mut [u8]) -> Result<usize, NoFetch> {
        let count = self.files.fetch(name, at, into)?;
        Ok(count.min(self.most))
    }
}
