ghost use Rattle.bt_image.specs.declared.refusal.ImageRefusal.TheVariants.{Want as want};
ghost use Rattle.std.specs.Prelude.{◌≡◌};

use std::alloc::{AllocError, AllocFailed};
use thiserror::Error;

/// What there may be too many of in an image.
#[derive(Clone, Copy, Debug, PartialEq, Eq)]
pub enum Counted {
    /// Sections, of which there may be 1,024.
    Sections,
    /// Symbols, of which there may be 262,144.
    Symbols,
    /// Functions, of which there may be 16,384.
    Functions,
}

/// Why a file is no image that is read, or that memory is wanting. The first that holds is answered, in the
/// order in which `Image::read` lists them.
#[derive(Clone, Copy, Debug, PartialEq, Eq, Error)]
pub enum ImageRefusal {
    /// The file has `have` bytes, and its header or its section headers end at byte `need`.
    #[error("Short")]
    Short { need: u64, have: u64 },
    /// The file doesn't begin with the magic number of ELF.
    #[error("Magic")]
    Magic,
    /// The file isn't of the class of 32 bits, which is 1.
    #[error("Class")]
    Class { got: u8 },
    /// The file's numbers don't have the highest byte first, which is 2.
    #[error("Order")]
    Order { got: u8 },
    /// The file isn't an executable, which is 2.
    #[error("Kind")]
    Kind { got: u16 },
    /// The file isn't for SPARC, which is 2.
    #[error("Machine")]
    Machine { got: u16 },
    /// The section headers aren't of 40 bytes each.
    #[error("HeaderSize")]
    HeaderSize { got: u16 },
    /// Section `n` passes the end of the file, or it is loaded and passes the end of memory.
    #[error("SectionOutside")]
    SectionOutside { n: u32 },
    /// The loaded sections `a` and `b` share an address.
    #[error("SectionOverlap")]
    SectionOverlap { a: u32, b: u32 },
    /// Section `n` is code, and its address isn't a multiple of 4.
    #[error("Alignment")]
    Alignment { n: u32 },
    /// Section `n` is the symbol table, and it, its strings or a name of a function is malformed.
    #[error("SymbolTable")]
    SymbolTable { n: u32 },
    /// There are `count` sections, symbols or functions, which is too many.
    #[error("Limit")]
    Limit { what: Counted, count: u64 },
    /// Section `n` is compressed.
    #[error("Compressed")]
    Compressed { n: u32 },
    /// Memory is wanting.
    #[error("Want")]
    Want,
}

impl From<AllocError> for ImageRefusal {
    ghost from_gives = { λ _ e. e ≡ want };

    fn from(_refused: AllocError) -> ImageRefusal {
        ImageRefusal::Want
    }
}

impl<T: Drop> From<AllocFailed<T>> for ImageRefusal {
    ghost from_gives = { λ _ e. e ≡ want };

    fn from(_refused: AllocFailed<T>) -> ImageRefusal {
        ImageRefusal::Want
    }
}
