//! The header of the file.
ghost use Rattle.std.specs.Prelude.{◌≡◌, ◌++◌, OnOk};
ghost use Rattle.gen_image.specs.File.{header};

use crate::abi::{
    CODE_ADDRESS, EHDR_SIZE, EM_SPARC, ET_EXEC, EV_CURRENT, IDENT, SECTIONS, SHDR_SIZE, STRTAB,
};
use crate::words::{put_halves, put_words};
use bt_base::Want;

/// Appends the header of a file whose section headers begin at `sections`.
#[tactic(auto, unfolding(crate::specs::File::header))]
pub fn put_header(out: &mut Vec<u8>, sections: u32) -> Result<(), Want>
    ensures { OnOk result (out.new.items ≡ out.old.items ++ header sections) }
{
    out.extend_from_slice(&IDENT)?;
    put_halves(out, &[ET_EXEC, EM_SPARC])?;
    put_words(out, &[EV_CURRENT, CODE_ADDRESS, 0, sections, 0])?;
    put_halves(out, &[EHDR_SIZE, 0, 0, SHDR_SIZE, SECTIONS, STRTAB])
}
