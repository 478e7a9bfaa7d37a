//! Where the parts of the file begin.
ghost use Rattle.std.specs.Prelude.{◌≡◌, ◌≤◌, ◌<◌, ◌^◌, length};
ghost use Rattle.gen_image.specs.Layout.{layout_of};
ghost use Rattle.gen_image.specs.Name.{strings};

use crate::abi::{EHDR_SIZE, SYM_SIZE};

/// The places and sizes of the parts, in bytes.
#[derive(Clone, Copy)]
pub struct Layout {
    /// The size of the code, which begins behind the header.
    pub text_size: u32,
    /// Where the symbols begin.
    pub symbols_at: u32,
    /// The size of the symbols.
    pub symbols_size: u32,
    /// Where the strings begin.
    pub strings_at: u32,
    /// The size of the strings.
    pub strings_size: u32,
    /// How many zero bytes follow the strings.
    pub padding: u32,
    /// Where the section headers begin.
    pub sections_at: u32,
}

/// The layout of the file of `n` functions with a table of strings of `strings_size` bytes.
#[tactic(auto, unfolding(crate::specs::Layout::layout_of), using(crate::proofs::Sizes::text_size, crate::proofs::Sizes::symbols_size))]
pub fn layout_of(n: u32, strings_size: u32) -> Layout
    requires few { n ≤ 4000 }
    requires short { strings_size ≤ 32000 }
    requires size { strings_size ≡ length (strings n) }
    ensures layout { result ≡ layout_of n }
    ensures padding { result.padding ≤ 3 }
    ensures few { result.sections_at < 2 ^ 20 }
{
    let text_size = 28 * n + 12;
    let symbols_at = u32::from(EHDR_SIZE) + text_size;
    let symbols_size = SYM_SIZE * (n + 2);
    let strings_at = symbols_at + symbols_size;
    let strings_end = strings_at + strings_size;
    let padding = (4 - strings_end % 4) % 4;
    Layout {
        text_size,
        symbols_at,
        symbols_size,
        strings_at,
        strings_size,
        padding,
        sections_at: strings_end + padding,
    }
}
