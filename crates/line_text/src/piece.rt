/// The first line or word of a text, and the text behind it.
#[derive(Clone, Copy, Debug)]
pub struct Piece<'a> {
    /// The line or the word.
    pub text: &'a [u8],
    /// What follows it.
    pub rest: &'a [u8],
}
