ghost use Rattle.std.specs.Prelude.{◌≡◌, ◌≤◌, IfSome};
ghost use Rattle.assert_lang.specs.Bounds.{IsRegister};
ghost use Rattle.assert_lang.specs.Register.{first_of, register_in, numbered, register_of};

/// The stack pointer `%sp`, which is `%o6`.
const STACK_POINTER: u8 = 14;

/// The frame pointer `%fp`, which is `%i6`.
const FRAME_POINTER: u8 = 30;

/// The first register of a bank: the globals, the outs, the locals and the ins have eight each.
fn first_of(bank: u8) -> Option<u8>
    ensures value { result ≡ first_of bank }
    ensures within { IfSome result (λ first. first ≤ 24) }
{
    match bank {
        b'g' => Some(0),
        b'o' => Some(8),
        b'l' => Some(16),
        b'i' => Some(24),
        _ => None,
    }
}

/// The register of a digit in the bank that begins with this one; register 0 isn't named.
fn register_in(first: u8, digit: u8) -> Option<u8>
    requires { first ≤ 24 }
    ensures value { result ≡ register_in (Some first) digit }
    ensures within { IfSome result IsRegister }
{
    if digit < b'0' || b'7' < digit {
        return None;
    }
    let register = first + (digit - b'0');
    if register == 0 { None } else { Some(register) }
}

/// The register of a bank's letter and a digit: `%g1` to `%i7`.
fn numbered(word: &[u8]) -> Option<u8>
    ensures value { result ≡ numbered word.now }
    ensures within { IfSome result IsRegister }
{
    match word {
        [sign, bank, digit] => if *sign == b'%' {
            match first_of(*bank) {
                None => None,
                Some(first) => register_in(first, *digit),
            }
        } else {
            None
        },
        _ => None,
    }
}

/// The integer register that a word names, from 1 to 31.
pub fn register_of(word: &[u8]) -> Option<u8>
    ensures value { result ≡ register_of word.now }
    ensures within { IfSome result IsRegister }
{
    if word == b"%sp".as_slice() {
        return Some(STACK_POINTER);
    }
    if word == b"%fp".as_slice() {
        return Some(FRAME_POINTER);
    }
    numbered(word)
}
