//! The numbers that stand in the file: those of the generic ABI (System V ABI, "Object Files"), by its names for them,
//! and where its own sections are.

/// What identifies an object file: its magic number, 32 bits, the highest byte first, and the version of the header.
pub const IDENT: [u8; 16] = [0x7f, b'E', b'L', b'F', 1, 2, 1, 0, 0, 0, 0, 0, 0, 0, 0, 0];
/// The type of executables.
pub const ET_EXEC: u16 = 2;
/// The machine SPARC.
pub const EM_SPARC: u16 = 2;
/// The version of object files.
pub const EV_CURRENT: u32 = 1;

/// The size of the file's header.
pub const EHDR_SIZE: u16 = 52;
/// The size of a section's header.
pub const SHDR_SIZE: u16 = 40;
/// The size of a symbol.
pub const SYM_SIZE: u32 = 16;

/// The type of sections with code or data.
pub const SHT_PROGBITS: u32 = 1;
/// The type of symbol tables.
pub const SHT_SYMTAB: u32 = 2;
/// The type of tables of strings.
pub const SHT_STRTAB: u32 = 3;
/// The flags of code: allocated and executable.
pub const CODE: u32 = 6;

/// The info of a global symbol that is a function.
pub const GLOBAL_FUNC: u8 = 0x12;

/// The number of the section with the code.
pub const TEXT: u16 = 1;
/// The number of the section with the strings.
pub const STRTAB: u16 = 3;
/// How many sections there are: the null section, the code, the symbols, the strings.
pub const SECTIONS: u16 = 4;
/// The address at which the code begins.
pub const CODE_ADDRESS: u32 = 0x0200_0000;
