ghost use Rattle.std.specs.Prelude.{◌≡◌};
ghost use Rattle.assert_lang.specs.Keyword.{name_of, keyword_of};

/// The first word of a statement.
#[derive(Clone, Copy, Debug, PartialEq, Eq)]
pub enum Keyword {
    Root,
    Never,
    At,
    Jump,
    Call,
    Loop,
    Stub,
}

/// All keywords.
const KEYWORDS: [Keyword; 7] = [
    Keyword::Root,
    Keyword::Never,
    Keyword::At,
    Keyword::Jump,
    Keyword::Call,
    Keyword::Loop,
    Keyword::Stub,
];

/// How a keyword is written.
fn name_of(keyword: Keyword) -> &'static [u8]
    ensures { result.now ≡ name_of keyword }
{
    match keyword {
        Keyword::Root => b"root",
        Keyword::Never => b"never",
        Keyword::At => b"at",
        Keyword::Jump => b"jump",
        Keyword::Call => b"call",
        Keyword::Loop => b"loop",
        Keyword::Stub => b"stub",
    }
}

/// The keyword that a word is.
#[tactic(auto, unfolding(crate::specs::Keyword::keyword_of))]
pub fn keyword_of(word: &[u8]) -> Option<Keyword>
    ensures { result ≡ keyword_of word.now }
{
    KEYWORDS
        .iter()
        .copied()
        .find(|keyword| name_of(*keyword) == word)
}
