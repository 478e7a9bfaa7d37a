//! Numbers and lists of numbers in a file, the highest byte of each first.
ghost use Rattle.std.specs.Prelude.{◌≡◌, ◌++◌, ◌≤◌, replicate, OnOk};
ghost use Rattle.gen_image.specs.Number.{half_bytes, word_bytes, halves_of, words_of};

use bt_base::Want;

/// Appends a word of four bytes.
#[tactic(auto, unfolding(crate::specs::Number::word_bytes))]
fn put_word(out: &mut Vec<u8>, word: u32) -> Result<(), Want>
    ensures { OnOk result (out.new.items ≡ out.old.items ++ word_bytes word) }
{
    out.extend_from_slice(&word.to_be_bytes())?;
    Ok(())
}

/// Appends a half-word of two bytes.
#[tactic(auto, unfolding(crate::specs::Number::half_bytes))]
fn put_half(out: &mut Vec<u8>, half: u16) -> Result<(), Want>
    ensures { OnOk result (out.new.items ≡ out.old.items ++ half_bytes half) }
{
    out.extend_from_slice(&half.to_be_bytes())?;
    Ok(())
}

/// Appends up to three zero bytes.
#[tactic(auto, using(crate::proofs::Eaches::zeros))]
pub fn put_zeros(out: &mut Vec<u8>, count: u32) -> Result<(), Want>
    requires { count ≤ 3 }
    ensures { OnOk result (out.new.items ≡ out.old.items ++ replicate count 0) }
{
    out.extend_from_slice(&[0, 0, 0][..count as usize])?;
    Ok(())
}

/// Appends words of four bytes.
pub fn put_words(out: &mut Vec<u8>, words: &[u32]) -> Result<(), Want>
    ensures { OnOk result (out.new.items ≡ out.old.items ++ words_of words.now) }
{
    for word in words {
        put_word(out, *word)?;
    }
    Ok(())
}

/// Appends half-words of two bytes.
pub fn put_halves(out: &mut Vec<u8>, halves: &[u16]) -> Result<(), Want>
    ensures { OnOk result (out.new.items ≡ out.old.items ++ halves_of halves.now) }
{
    for half in halves {
        put_half(out, *half)?;
    }
    Ok(())
}
