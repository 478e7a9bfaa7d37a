//! The program points, steps and calls of each subprogram, as a row of keys for each.
ghost use Rattle.std.specs.Prelude.{◌≡◌, ◌<◌, ◌++◌, ◌∷◌, [], List, IfOk, OnOk, length, replicate, slice_index_or, slice_set, vec_len};
ghost use Rattle.std.specs.List.Sorted.{IsStrictlyIncreasing};
ghost use Rattle.abs_state.specs.declared.key.Key.{Key as AnyKey};
ghost use Rattle.context_bounds.specs.Own.{own_rows, owner_of, rows_of};

use abs_state::Key;
use bt_base::Want;
use std::alloc::Global;

/// The subprogram whose program point, step or call a key is.
fn owner_of(key: Key) -> Option<u32>
    ensures { result ≡ owner_of key }
{
    match key {
        Key::Node(p) => Some(p.sub),
        Key::Edge { from, .. } => Some(from.sub),
        Key::Call { from, .. } => Some(from.sub),
        Key::Summary { .. } => None,
        Key::Gap { .. } => None,
    }
}

/// Appends a key to a row.
fn push_at(rows: &mut Vec<Vec<Key>>, row: usize, key: Key) -> Result<(), Want>
    requires { row < vec_len rows.old }
    ensures count { vec_len rows.new ≡ vec_len rows.old }
    ensures pushed { OnOk result (rows_of rows.new.items ≡ slice_set (rows_of rows.old.items) row (slice_index_or (rows_of rows.old.items) row [] ++ key ∷ [])) }
{
    let keys = &mut rows[row];
    keys.push(key)?;
    Ok(())
}

/// Appends a key to the row of its subprogram, if it is one's and that is listed.
fn put_key(rows: &mut Vec<Vec<Key>>, subs: &[u32], key: Key) -> Result<(), Want>
    requires rising { IsStrictlyIncreasing subs.now }
    requires count { vec_len rows.old ≡ length subs.now }
    ensures count { vec_len rows.new ≡ vec_len rows.old }
    ensures put { OnOk result ((keys : List AnyKey) → rows_of rows.old.items ≡ own_rows subs.now keys → rows_of rows.new.items ≡ own_rows subs.now (keys ++ key ∷ [])) }
{
    match owner_of(key) {
        None => Ok(()),
        Some(sub) => match subs.binary_search(&sub) {
            Ok(row) => push_at(rows, row, key),
            Err(_) => Ok(()),
        },
    }
}

/// So many empty rows.
fn empty_rows(alloc: Global, count: usize) -> Result<Vec<Vec<Key>>, Want>
    ensures { IfOk result (λ rows. rows_of rows.items ≡ replicate count []) }
{
    let mut rows = Vec::with_capacity(alloc, count)?;
    for _ in 0..count {
        rows.push(Vec::new(alloc))?;
    }
    Ok(rows)
}

/// The program points, steps and calls of each listed subprogram among some keys, in their order.
pub fn own_rows(alloc: Global, subs: &[u32], keys: &[Key]) -> Result<Vec<Vec<Key>>, Want>
    requires { IsStrictlyIncreasing subs.now }
    ensures { IfOk result (λ rows. rows_of rows.items ≡ own_rows subs.now keys.now) }
{
    let mut rows = empty_rows(alloc, subs.len())?;
    for key in keys {
        put_key(&mut rows, subs, *key)?;
    }
    Ok(rows)
}
