//! The numbers of the generic ABI (System V ABI, "Object Files"), by its names for them. A place is counted in bytes
//! from the start of what it is a field of.

/// The place of the magic number in the file's header.
pub const EI_MAG0: usize = 0;
/// The place of the class.
pub const EI_CLASS: usize = 4;
/// The place of the order of bytes.
pub const EI_DATA: usize = 5;
/// The place of the file's type.
pub const E_TYPE: usize = 16;
/// The place of the machine.
pub const E_MACHINE: usize = 18;
/// The place of where the section headers begin.
pub const E_SHOFF: usize = 32;
/// The place of the size of a section header.
pub const E_SHENTSIZE: usize = 46;
/// The place of how many section headers there are.
pub const E_SHNUM: usize = 48;

/// The size of the file's header.
pub const EHDR_SIZE: u64 = 52;
/// The size of a section's header.
pub const SHDR_SIZE: u16 = 40;
/// The size of a symbol.
pub const SYM_SIZE: u32 = 16;

/// The magic number.
pub const ELFMAG: u32 = 0x7f45_4c46;
/// The class of files of 32 bits.
pub const ELFCLASS32: u8 = 1;
/// The order of bytes in which the highest comes first.
pub const ELFDATA2MSB: u8 = 2;
/// The type of executables.
pub const ET_EXEC: u16 = 2;
/// The machine SPARC.
pub const EM_SPARC: u16 = 2;

/// The place of the type in a section's header.
pub const SH_TYPE: usize = 4;
/// The place of the flags.
pub const SH_FLAGS: usize = 8;
/// The place of the address.
pub const SH_ADDR: usize = 12;
/// The place of where the section's bytes begin in the file.
pub const SH_OFFSET: usize = 16;
/// The place of the size.
pub const SH_SIZE: usize = 20;
/// The place of the link to another section.
pub const SH_LINK: usize = 24;
/// The place of the size of an entry.
pub const SH_ENTSIZE: usize = 36;

/// The type of symbol tables.
pub const SHT_SYMTAB: u32 = 2;
/// The type of tables of strings.
pub const SHT_STRTAB: u32 = 3;
/// The type of memory without bytes in the file.
pub const SHT_NOBITS: u32 = 8;

/// The bit of the flag of writable sections.
pub const SHF_WRITE_BIT: u32 = 0;
/// The bit of the flag of allocated sections.
pub const SHF_ALLOC_BIT: u32 = 1;
/// The bit of the flag of executable sections.
pub const SHF_EXECINSTR_BIT: u32 = 2;
/// The bit of the flag of compressed sections.
pub const SHF_COMPRESSED_BIT: u32 = 11;

/// The place of the name in a symbol.
pub const ST_NAME: usize = 0;
/// The place of the value.
pub const ST_VALUE: usize = 4;
/// The place of the type and binding.
pub const ST_INFO: usize = 12;
/// The place of the section's number.
pub const ST_SHNDX: usize = 14;

/// The type of functions, in the low four bits of a symbol's info.
pub const STT_FUNC: u8 = 2;
/// The info of a global symbol (STB_GLOBAL) of no type (STT_NOTYPE).
pub const GLOBAL_NOTYPE: u8 = 0x10;
/// The number of no section.
pub const SHN_UNDEF: u16 = 0;
