//! The statements, one function for what follows each keyword.
ghost use Rattle.std.specs.Prelude.{◌≡◌, MatchResult, IfOk};
ghost use Rattle.assert_lang.specs.Bounds.{IsWithin};
ghost use Rattle.assert_lang.specs.Statement.{form, statement, IsFaultOf};

use crate::keyword::Keyword;
use crate::refusal::Fault;
use crate::slots::{count, end, keyword, place, places, range, register, the_word};
use crate::words::Words;
use crate::{Body, Expected};
use std::alloc::Global;

/// What follows `root`.
fn root(alloc: Global, words: &mut Words<'_>) -> Result<Body, Fault>
    ensures value { MatchResult result (λ body. form Keyword.Root words.old ≡ Ok body) (IsFaultOf (form Keyword.Root words.old)) }
    ensures within { IfOk result IsWithin }
{
    let spot = place(alloc, words)?;
    end(words)?;
    Ok(Body::Root(spot))
}

/// What follows `never`.
fn never(alloc: Global, words: &mut Words<'_>) -> Result<Body, Fault>
    ensures value { MatchResult result (λ body. form Keyword.Never words.old ≡ Ok body) (IsFaultOf (form Keyword.Never words.old)) }
    ensures within { IfOk result IsWithin }
{
    let spot = place(alloc, words)?;
    end(words)?;
    Ok(Body::Never(spot))
}

/// What follows `at`.
fn at(alloc: Global, words: &mut Words<'_>) -> Result<Body, Fault>
    ensures value { MatchResult result (λ body. form Keyword.At words.old ≡ Ok body) (IsFaultOf (form Keyword.At words.old)) }
    ensures within { IfOk result IsWithin }
{
    let spot = place(alloc, words)?;
    let reg = register(words)?;
    let (lo, hi) = range(words)?;
    end(words)?;
    Ok(Body::At { spot, reg, lo, hi })
}

/// What follows `jump`.
fn jump(alloc: Global, words: &mut Words<'_>) -> Result<Body, Fault>
    ensures value { MatchResult result (λ body. form Keyword.Jump words.old ≡ Ok body) (IsFaultOf (form Keyword.Jump words.old)) }
    ensures within { IfOk result IsWithin }
{
    let spot = place(alloc, words)?;
    the_word(words, b"to", Expected::To)?;
    let to = places(alloc, words)?;
    Ok(Body::Jump { spot, to })
}

/// What follows `call`.
fn call(alloc: Global, words: &mut Words<'_>) -> Result<Body, Fault>
    ensures value { MatchResult result (λ body. form Keyword.Call words.old ≡ Ok body) (IsFaultOf (form Keyword.Call words.old)) }
    ensures within { IfOk result IsWithin }
{
    let spot = place(alloc, words)?;
    the_word(words, b"to", Expected::To)?;
    let to = places(alloc, words)?;
    Ok(Body::CallTo { spot, to })
}

/// What follows `loop`.
fn bounded_loop(alloc: Global, words: &mut Words<'_>) -> Result<Body, Fault>
    ensures value { MatchResult result (λ body. form Keyword.Loop words.old ≡ Ok body) (IsFaultOf (form Keyword.Loop words.old)) }
    ensures within { IfOk result IsWithin }
{
    let spot = place(alloc, words)?;
    the_word(words, b"repeats", Expected::Repeats)?;
    let count = count(words)?;
    end(words)?;
    Ok(Body::Loop { spot, count })
}

/// What follows `stub`.
fn stub(alloc: Global, words: &mut Words<'_>) -> Result<Body, Fault>
    ensures value { MatchResult result (λ body. form Keyword.Stub words.old ≡ Ok body) (IsFaultOf (form Keyword.Stub words.old)) }
    ensures within { IfOk result IsWithin }
{
    let spot = place(alloc, words)?;
    the_word(words, b"time", Expected::Time)?;
    let time = count(words)?;
    end(words)?;
    Ok(Body::Stub { spot, time })
}

/// What follows a keyword.
fn form(keyword: Keyword, alloc: Global, words: &mut Words<'_>) -> Result<Body, Fault>
    ensures value { MatchResult result (λ body. form keyword words.old ≡ Ok body) (IsFaultOf (form keyword words.old)) }
    ensures within { IfOk result IsWithin }
{
    match keyword {
        Keyword::Root => root(alloc, words),
        Keyword::Never => never(alloc, words),
        Keyword::At => at(alloc, words),
        Keyword::Jump => jump(alloc, words),
        Keyword::Call => call(alloc, words),
        Keyword::Loop => bounded_loop(alloc, words),
        Keyword::Stub => stub(alloc, words),
    }
}

/// The statement of a line.
pub fn statement(alloc: Global, words: &mut Words<'_>) -> Result<Body, Fault>
    ensures value { MatchResult result (λ body. statement words.old ≡ Ok body) (IsFaultOf (statement words.old)) }
    ensures within { IfOk result IsWithin }
{
    let keyword = keyword(words)?;
    form(keyword, alloc, words)
}
