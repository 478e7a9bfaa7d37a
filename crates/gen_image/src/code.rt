//! The code of the functions and of main.
ghost use Rattle.std.specs.Prelude.{◌≡◌, ◌++◌, ◌≤◌, OnOk};
ghost use Rattle.gen_image.specs.Code.{call_code, function_code, main_code, text};
ghost use Rattle.gen_image.specs.Number.{each};

use crate::calls::put_call;
use crate::words::put_words;
use bt_base::Want;

/// Appends the code of a function, which counts `%o0` down to zero.
#[tactic(auto, unfolding(crate::specs::Code::function_code))]
fn put_function(out: &mut Vec<u8>) -> Result<(), Want>
    ensures { OnOk result (out.new.items ≡ out.old.items ++ function_code) }
{
    put_words(
        out,
        &[
            0x90a2_2001,
            0x12bf_ffff,
            0x0100_0000,
            0x81c3_e008,
            0x0100_0000,
        ],
    )
}

/// Appends the code of `n` functions.
fn put_functions(out: &mut Vec<u8>, n: u32) -> Result<(), Want>
    ensures { OnOk result (out.new.items ≡ out.old.items ++ each (λ k. function_code) n) }
{
    for k in 0..n {
        put_function(out)?;
    }
    Ok(())
}

/// Appends main's calls of `n` functions.
fn put_calls(out: &mut Vec<u8>, n: u32) -> Result<(), Want>
    requires { n ≤ 4000 }
    ensures { OnOk result (out.new.items ≡ out.old.items ++ each (call_code n) n) }
{
    for k in 0..n {
        put_call(out, n, k)?;
    }
    Ok(())
}

/// Appends the code of main.
fn put_main(out: &mut Vec<u8>, n: u32) -> Result<(), Want>
    requires { n ≤ 4000 }
    ensures { OnOk result (out.new.items ≡ out.old.items ++ main_code n) }
{
    put_words(out, &[0x9de3_bfa0])?;
    put_calls(out, n)?;
    put_words(out, &[0x81c7_e008, 0x81e8_0000])
}

/// Appends the code of `n` functions and of main.
#[tactic(auto, unfolding(crate::specs::Code::text))]
pub fn put_text(out: &mut Vec<u8>, n: u32) -> Result<(), Want>
    requires { n ≤ 4000 }
    ensures { OnOk result (out.new.items ≡ out.old.items ++ text n) }
{
    put_functions(out, n)?;
    put_main(out, n)
}
