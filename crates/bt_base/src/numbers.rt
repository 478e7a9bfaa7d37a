ghost use Rattle.std.specs.Prelude.{◌≡◌, ◌+◌, ◌≤◌, length, drop};
ghost use Rattle.std.specs.Option.{SomeIff};
ghost use Rattle.byteorder.specs.Endian.{big_number};

use byteorder::{BigEndian, ByteOrder};

/// The big-endian number of 32 bits at byte `at`; None exactly where it passes the end.
pub fn be32(bytes: &[u8], at: usize) -> Option<u32>
    ensures { SomeIff result (at + 4 ≤ length bytes.now) (big_number 4 (drop at bytes.now)) }
{
    if at > bytes.len() || bytes.len() - at < 4 {
        return None;
    }
    Some(BigEndian::read_u32(&bytes[at..]))
}

/// The big-endian number of 16 bits at byte `at`; None exactly where it passes the end.
pub fn be16(bytes: &[u8], at: usize) -> Option<u16>
    ensures { SomeIff result (at + 2 ≤ length bytes.now) (big_number 2 (drop at bytes.now)) }
{
    if at > bytes.len() || bytes.len() - at < 2 {
        return None;
    }
    Some(BigEndian::read_u16(&bytes[at..]))
}
