//! What the memory forms read and touch.
ghost use Rattle.std.specs.Prelude.{◌≡◌, ◌≢◌, ◌<◌, ◌≤◌, ◌+◌, ◌^◌, IfSome, length};
ghost use Rattle.std.specs.Option.{option_copied};
ghost use Rattle.sparc_machine.specs.Memory.{load_size, store_size, float_size, is_float_store, constant_bytes, touches, read_number, extended, sign_extended, first_word, second_word};

use bt_image::Image;
use byteorder::{BigEndian, ByteOrder};
use sparc_decode::{FloatKind, LoadKind, StoreKind};

/// How many bytes a load reads.
pub fn size_of_load(kind: LoadKind) -> u32
    ensures value { result ≡ load_size kind }
    ensures some { 0 < result }
    ensures few { result ≤ 8 }
{
    match kind {
        LoadKind::Ld => 4,
        LoadKind::Ldub => 1,
        LoadKind::Lduh => 2,
        LoadKind::Ldd => 8,
        LoadKind::Ldsb => 1,
        LoadKind::Ldsh => 2,
    }
}

/// How many bytes a store writes.
pub fn size_of_store(kind: StoreKind) -> u32
    ensures value { result ≡ store_size kind }
    ensures some { 0 < result }
    ensures few { result ≤ 8 }
{
    match kind {
        StoreKind::St => 4,
        StoreKind::Stb => 1,
        StoreKind::Sth => 2,
        StoreKind::Std => 8,
    }
}

/// How many bytes a form of the floating-point unit reads or writes.
pub fn size_of_float(kind: FloatKind) -> u32
    ensures value { result ≡ float_size kind }
    ensures some { 0 < result }
    ensures few { result ≤ 8 }
{
    match kind {
        FloatKind::Ldf => 4,
        FloatKind::Ldfsr => 4,
        FloatKind::Lddf => 8,
        FloatKind::Stf => 4,
        FloatKind::Stfsr => 4,
        FloatKind::Stdf => 8,
    }
}

/// Whether a form of the floating-point unit is a store.
pub fn stores_float(kind: FloatKind) -> bool
    ensures { result ≡ is_float_store kind }
{
    match kind {
        FloatKind::Ldf => false,
        FloatKind::Ldfsr => false,
        FloatKind::Lddf => false,
        FloatKind::Stf => true,
        FloatKind::Stfsr => true,
        FloatKind::Stdf => true,
    }
}

/// The bytes at an address, where they stand in one read-only section.
pub fn constant(image: &Image, address: u32, size: u32) -> Option<&[u8]>
    requires some { 0 < size }
    requires few { size ≤ 8 }
    ensures value { option_copied result ≡ constant_bytes image.now address size }
    ensures len { IfSome result (λ bytes. length bytes.now ≡ size) }
{
    image.read_only_bytes_at(address, size)
}

/// Whether one of the bytes at an address is read-only.
pub fn touches_read_only(image: &Image, address: u32, size: u32) -> bool
    requires few { size ≤ 8 }
    requires fits { address + size ≤ 2 ^ 32 }
    ensures { result ≡ touches image.now address size }
{
    (0..size).any(|k| image.readonly(address + k))
}

/// The byte at an address, or the low bits of a free word.
pub fn read_byte(image: &Image, address: u32, free: u32) -> u32
    ensures value { result ≡ read_number (constant_bytes image.now address 1) 1 free }
    ensures small { result < 256 }
{
    match constant(image, address, 1) {
        Some(bytes) => u32::from(bytes[0]),
        None => free & 0xff,
    }
}

/// The halfword at an address, or the low bits of a free word.
pub fn read_half(image: &Image, address: u32, free: u32) -> u32
    ensures value { result ≡ read_number (constant_bytes image.now address 2) 2 free }
    ensures small { result < 65536 }
{
    match constant(image, address, 2) {
        Some(bytes) => u32::from(BigEndian::read_u16(bytes)),
        None => free & 0xffff,
    }
}

/// The word at an address, or a free one.
pub fn read_word(image: &Image, address: u32, free: u32) -> u32
    ensures { result ≡ read_number (constant_bytes image.now address 4) 4 free }
{
    match constant(image, address, 4) {
        Some(bytes) => BigEndian::read_u32(bytes),
        None => free,
    }
}

/// The two words of the double word at an address, or free ones.
pub fn read_double(image: &Image, address: u32, first: u32, second: u32) -> (u32, u32)
    ensures first { result.0 ≡ first_word (constant_bytes image.now address 8) first }
    ensures second { result.1 ≡ second_word (constant_bytes image.now address 8) second }
{
    match constant(image, address, 8) {
        Some(bytes) => (BigEndian::read_u32(bytes), BigEndian::read_u32(&bytes[4..])),
        None => (first, second),
    }
}

/// A byte with its sign, as a word.
fn extend_byte(x: u32) -> u32
    requires { x < 256 }
    ensures { result ≡ sign_extended 8 x }
{
    if x < 128 { x } else { x + 0xffff_ff00 }
}

/// A halfword with its sign, as a word.
fn extend_half(x: u32) -> u32
    requires { x < 65536 }
    ensures { result ≡ sign_extended 16 x }
{
    if x < 32768 { x } else { x + 0xffff_0000 }
}

/// What a load of less than a double word puts into its register.
pub fn load(image: &Image, kind: LoadKind, address: u32, free: u32) -> u32
    requires { kind ≢ LoadKind.Ldd }
    ensures { result ≡ extended kind (read_number (constant_bytes image.now address (load_size kind)) (load_size kind) free) }
{
    match kind {
        LoadKind::Ld => read_word(image, address, free),
        LoadKind::Ldub => read_byte(image, address, free),
        LoadKind::Lduh => read_half(image, address, free),
        LoadKind::Ldsb => extend_byte(read_byte(image, address, free)),
        LoadKind::Ldsh => extend_half(read_half(image, address, free)),
        LoadKind::Ldd => unreachable!(),
    }
}
