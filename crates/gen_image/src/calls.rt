//! The instructions of main that call a function.
ghost use Rattle.std.specs.Prelude.{◌≡◌, ◌++◌, ◌+◌, ◌^◌, ◌<◌, ◌≤◌, OnOk};
ghost use Rattle.gen_image.specs.Code.{call_at, call_code, call_word, count_of, function_at};

use crate::abi::CODE_ADDRESS;
use crate::words::put_words;
use bt_base::Want;

/// The address of function `k`; that of main, which stands behind the last one, where there are `k` functions.
pub fn function_at(k: u32) -> u32
    requires { k ≤ 4000 }
    ensures { result ≡ function_at k }
{
    CODE_ADDRESS + 20 * k
}

/// How often the loop of function `k` runs: from 1 to 100 times.
fn count_of(k: u32) -> u32
    requires { k < 4000 }
    ensures { result ≡ count_of k }
{
    1 + (37 * k + 11) % 100
}

/// The CALL at an address of a callee.
fn call_word(from: u32, to: u32) -> u32
    ensures { result ≡ call_word from to }
{
    0x4000_0000 + to.wrapping_sub(from) / 4
}

/// Appends main's call of function `k` of `n`, with its count in the delay slot.
#[tactic(auto, unfolding(crate::specs::Code::call_code))]
pub fn put_call(out: &mut Vec<u8>, n: u32, k: u32) -> Result<(), Want>
    requires few { n ≤ 4000 }
    requires below { k < n }
    ensures { OnOk result (out.new.items ≡ out.old.items ++ call_code n k) }
{
    let from = function_at(n) + 4 + 8 * k;
    put_words(
        out,
        &[call_word(from, function_at(k)), 0x9010_2000 + count_of(k)],
    )
}
