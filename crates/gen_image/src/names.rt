//! The names of the functions.
ghost use Rattle.std.specs.Prelude.{◌≡◌, ◌++◌, ◌≤◌, ◌<◌, length, IfOk, OnOk};
ghost use Rattle.gen_image.specs.Name.{function_name, names_before, strings};

use bt_base::{Want, put_decimal};
use itoa::Buffer;
use std::alloc::Global;

/// Appends the name of function `k`, and a zero byte.
#[tactic(auto, unfolding(crate::specs::Name::function_name))]
fn put_name(out: &mut Vec<u8>, k: u32) -> Result<(), Want>
    ensures { OnOk result (out.new.items ≡ out.old.items ++ function_name k) }
{
    out.extend_from_slice(b"f")?;
    put_decimal(out, u64::from(k))?;
    out.extend_from_slice(b"\0")?;
    Ok(())
}

/// How many bytes the name of function `k` has in the table of strings.
#[tactic(auto, using(crate::proofs::Sizes::name_size))]
pub fn name_len(k: u32) -> u32
    requires { k < 4000 }
    ensures size { result ≡ length (function_name k) }
    ensures short { result ≤ 6 }
{
    let mut buffer = Buffer::new();
    buffer.format(k).len() as u32 + 2
}

/// The names of `n` functions behind an empty one.
fn names_before(alloc: Global, n: u32) -> Result<Vec<u8>, Want>
    ensures { IfOk result (λ names. names.items ≡ names_before n) }
{
    let mut names = Vec::from_slice(alloc, b"\0")?;
    for k in 0..n {
        put_name(&mut names, k)?;
    }
    Ok(names)
}

/// The table of strings of `n` functions.
#[tactic(auto, unfolding(crate::specs::Name::strings))]
pub fn strings(alloc: Global, n: u32) -> Result<Vec<u8>, Want>
    ensures { IfOk result (λ table. table.items ≡ strings n) }
{
    let mut names = names_before(alloc, n)?;
    names.extend_from_slice(b"main\0")?;
    Ok(names)
}
