//! What a part has still to tell the other parts.
use bt_base::Want;
use flow_system::{Facts, PARTS};
use std::alloc::Global;

/// By the number of each other part: the keys whose facts that part is to be handed, and the keys of that part whose
/// facts are asked for. And for each own key the parts that read it.
///
/// It only saves work: whatever is written here, what parts are handed is due.
#[derive(Drop)]
pub struct Mail<K: Ord> {
    news: Vec<Vec<K>>,
    asks: Vec<Vec<K>>,
    readers: Facts<K, u64>,
}

/// An empty list for each part.
fn lists<K: Copy>(alloc: Global) -> Result<Vec<Vec<K>>, Want> {
    let mut lists = Vec::new(alloc);
    for _ in 0..PARTS {
        lists.push(Vec::new(alloc))?;
    }
    Ok(lists)
}

/// Writes a key at the end of a part's list.
fn note<K: Copy>(lists: &mut Vec<Vec<K>>, part: u32, key: K) -> Result<(), Want> {
    if let Some(list) = lists.get_mut(part as usize) {
        list.push(key)?;
    }
    Ok(())
}

/// Takes out what a part's list has.
fn take_list<K: Copy>(alloc: Global, lists: &mut Vec<Vec<K>>, part: u32) -> Vec<K> {
    match lists.get_mut(part as usize) {
        Some(list) => std::mem::replace(list, Vec::new(alloc)),
        None => Vec::new(alloc),
    }
}

/// Whether a part's list has something.
fn is_noted<K>(lists: &Vec<Vec<K>>, part: u32) -> bool {
    match lists.get(part as usize) {
        Some(list) => !list.is_empty(),
        None => false,
    }
}

impl<K: Ord + Copy> Mail<K> {
    /// Nothing to tell.
    pub fn new(alloc: Global) -> Result<Mail<K>, Want> {
        let news = lists(alloc)?;
        let asks = lists(alloc)?;
        Ok(Mail {
            news,
            asks,
            readers: Facts::empty(alloc),
        })
    }

    /// Notes that a part is to be handed the fact of a key.
    pub fn tell(&mut self, part: u32, key: K) -> Result<(), Want> {
        note(&mut self.news, part, key)
    }

    /// Notes that a part is to be asked for the fact of a key of its own.
    pub fn ask(&mut self, part: u32, key: K) -> Result<(), Want> {
        note(&mut self.asks, part, key)
    }

    /// Notes that a part reads an own key.
    fn add_reader(&mut self, part: u32, key: K) -> Result<(), Want> {
        let before = match self.readers.get(key) {
            Some(parts) => *parts,
            None => 0,
        };
        self.readers.put(key, before | 1 << (part % PARTS))?;
        Ok(())
    }

    /// Notes that a part reads these own keys.
    pub fn add_readers(&mut self, part: u32, keys: &[K]) -> Result<(), Want> {
        for k in keys {
            self.add_reader(part, *k)?;
        }
        Ok(())
    }

    /// Notes that each part that reads an own key is to be handed its fact.
    pub fn tell_readers(&mut self, key: K) -> Result<(), Want> {
        let parts = match self.readers.get(key) {
            Some(parts) => *parts,
            None => return Ok(()),
        };
        for part in 0..PARTS {
            if parts >> part & 1 == 1 {
                note(&mut self.news, part, key)?;
            }
        }
        Ok(())
    }

    /// Whether there is anything to tell a part.
    pub fn has_any(&self, part: u32) -> bool {
        is_noted(&self.news, part) || is_noted(&self.asks, part)
    }

    /// Takes out the keys whose facts a part is to be handed.
    pub fn take_news(&mut self, alloc: Global, part: u32) -> Vec<K> {
        take_list(alloc, &mut self.news, part)
    }

    /// Takes out the keys that a part is to be asked for.
    pub fn take_asks(&mut self, alloc: Global, part: u32) -> Vec<K> {
        take_list(alloc, &mut self.asks, part)
    }
}
