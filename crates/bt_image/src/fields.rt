//! The numbers of a file, at places that are within it. The highest byte comes first.
ghost use Rattle.std.specs.Prelude.{◌≡◌, ◌+◌, ◌≤◌, ◌<◌, length};
ghost use Rattle.bt_image.specs.File.{byte_field, half_field, word_field};

use bt_base::{be16, be32};

/// The byte at a place.
pub fn byte_field(file: &[u8], at: usize) -> u8
    requires { at < length file.now }
    ensures { result ≡ byte_field file.now at }
{
    file[at]
}

/// The half-word of two bytes at a place.
#[tactic(auto, unfolding(crate::specs::File::half_field))]
pub fn half_field(file: &[u8], at: usize) -> u16
    requires { at + 2 ≤ length file.now }
    ensures { result ≡ half_field file.now at }
{
    be16(file, at).unwrap()
}

/// The word of four bytes at a place.
#[tactic(auto, unfolding(crate::specs::File::word_field))]
pub fn word_field(file: &[u8], at: usize) -> u32
    requires { at + 4 ≤ length file.now }
    ensures { result ≡ word_field file.now at }
{
    be32(file, at).unwrap()
}
