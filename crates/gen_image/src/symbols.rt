//! The symbol table.
ghost use Rattle.std.specs.Prelude.{◌≡◌, ◌++◌, ◌+◌, ◌*◌, ◌<◌, ◌≤◌, ◌^◌, length, IfOk, OnOk};
ghost use Rattle.gen_image.specs.Code.{main_code};
ghost use Rattle.gen_image.specs.Name.{name_at};
ghost use Rattle.gen_image.specs.Number.{each};
ghost use Rattle.gen_image.specs.Symbol.{symbol_bytes, symbol_of, null_symbol, function_symbol, symbols};

use crate::abi::{GLOBAL_FUNC, TEXT};
use crate::calls::function_at;
use crate::names::name_len;
use crate::words::{put_halves, put_words};
use bt_base::Want;

/// A symbol (System V ABI, "Symbol Table"): where its name begins in the strings, its address, its size in bytes, its
/// type and binding, a byte that isn't used, and the number of its section.
#[derive(Clone, Copy)]
pub struct Symbol {
    pub name: u32,
    pub value: u32,
    pub size: u32,
    pub info: u8,
    pub other: u8,
    pub section: u16,
}

/// The symbol of a function.
fn symbol_of(name: u32, value: u32, size: u32) -> Symbol
    ensures { result ≡ symbol_of name value size }
{
    Symbol {
        name,
        value,
        size,
        info: GLOBAL_FUNC,
        other: 0,
        section: TEXT,
    }
}

/// The symbol of function `k`.
#[tactic(auto, using(crate::proofs::Sizes::function_code_size))]
fn function_symbol(name: u32, k: u32) -> Symbol
    requires few { k ≤ 4000 }
    requires named { name ≡ name_at k }
    ensures { result ≡ function_symbol k }
{
    symbol_of(name, function_at(k), 20)
}

/// Appends a symbol.
#[tactic(auto, unfolding(crate::specs::Symbol::symbol_bytes))]
fn put_symbol(out: &mut Vec<u8>, symbol: Symbol) -> Result<(), Want>
    ensures { OnOk result (out.new.items ≡ out.old.items ++ symbol_bytes symbol) }
{
    put_words(out, &[symbol.name, symbol.value, symbol.size])?;
    out.extend_from_slice(&[symbol.info, symbol.other])?;
    put_halves(out, &[symbol.section])
}

/// Appends the null symbol.
fn put_null(out: &mut Vec<u8>) -> Result<(), Want>
    ensures { OnOk result (out.new.items ≡ out.old.items ++ symbol_bytes null_symbol) }
{
    let null = Symbol {
        name: 0,
        value: 0,
        size: 0,
        info: 0,
        other: 0,
        section: 0,
    };
    put_symbol(out, null)
}

/// Appends the symbols of `n` functions, and gives where the next name begins.
fn put_functions(out: &mut Vec<u8>, n: u32) -> Result<u32, Want>
    requires { n ≤ 4000 }
    ensures bytes { OnOk result (out.new.items ≡ out.old.items ++ each (λ k. symbol_bytes (function_symbol k)) n) }
    ensures next { IfOk result (λ name. name ≡ name_at n) }
{
    let mut name = 1;
    for k in 0..n {
        put_symbol(out, function_symbol(name, k))?;
        name += name_len(k);
    }
    Ok(name)
}

/// The size of main's code, of a SAVE, `n` calls, a return and a RESTORE.
#[tactic(auto, using(crate::proofs::Sizes::main_code_size))]
fn main_size(n: u32) -> u32
    requires { n ≤ 4000 }
    ensures { result ≡ length (main_code n) }
{
    8 * n + 12
}

/// Appends the symbols of `n` functions and of main behind the null symbol.
#[tactic(auto, unfolding(crate::specs::Symbol::symbols))]
pub fn put_symbols(out: &mut Vec<u8>, n: u32) -> Result<(), Want>
    requires { n ≤ 4000 }
    ensures { OnOk result (out.new.items ≡ out.old.items ++ symbols n) }
{
    put_null(out)?;
    let name = put_functions(out, n)?;
    put_symbol(out, symbol_of(name, function_at(n), main_size(n)))
}
