//! Assertions bound one after the other, with an index of what they speak of.
ghost use Rattle.std.specs.Prelude.{◌≡◌, [], ◌∷◌, ◌++◌, None, MatchResult, IfOk, IfSome, OnOk, All};
ghost use Rattle.std.specs.Option.{option_copied};
ghost use Rattle.assert_lang.specs.Bounds.{AssertsWithin};
ghost use Rattle.assert_bind.specs.Binding.{about, binding, bound_behind};
ghost use Rattle.assert_bind.specs.Body.{IsRefusalOf, SaysWithin, SpeaksOfCodeIn};
ghost use Rattle.assert_bind.specs.Index.{IsIndex, IsSound};
ghost use Rattle.assert_bind.specs.Subject.{subject_of};

use crate::bodies::bound_body;
use crate::subject::{Subject, subject_of};
use crate::{BindRefusal, BoundAssertion};
use assert_lang::Assertion;
use bt_base::Want;
use bt_image::Image;
use std::alloc::Global;
use std::collections::BTreeMap;

/// Bound assertions, and where the one about each subject stands.
#[derive(Drop)]
pub struct Indexed {
    pub list: Vec<BoundAssertion>,
    pub places: BTreeMap<Subject, usize>,
}

/// The assertion about a subject.
pub fn about<'a>(
    list: &'a [BoundAssertion],
    places: &BTreeMap<Subject, usize>,
    subject: Subject,
) -> Option<&'a BoundAssertion>
    requires index { IsIndex list.now places.now }
    requires within { All SaysWithin list.now }
    ensures value { option_copied result ≡ about list.now subject }
    ensures within { IfSome result (λ assertion. SaysWithin assertion.now) }
{
    match places.get(&subject) {
        None => None,
        Some(place) => Some(&list[*place]),
    }
}

/// An assertion bound behind earlier ones.
fn bound_behind(
    alloc: Global,
    image: &Image,
    list: &[BoundAssertion],
    places: &BTreeMap<Subject, usize>,
    assertion: &Assertion,
) -> Result<BoundAssertion, BindRefusal>
    requires index { IsIndex list.now places.now }
    requires within { All SaysWithin list.now }
    ensures value { MatchResult result (λ bound. bound_behind image.now list.now assertion.now ≡ Ok bound) (IsRefusalOf (bound_behind image.now list.now assertion.now)) }
    ensures fresh { IfOk result (λ bound. about list.now (subject_of bound.body) ≡ None) }
    ensures code { IfOk result (SpeaksOfCodeIn image.now) }
    ensures within { AssertsWithin assertion.now → IfOk result SaysWithin }
{
    let body = bound_body(alloc, image, assertion.line, &assertion.body)?;
    match about(list, places, subject_of(&body)) {
        None => Ok(BoundAssertion {
            line: assertion.line,
            body,
        }),
        Some(earlier) => Err(BindRefusal::Conflict {
            line: assertion.line,
            other: earlier.line,
        }),
    }
}

/// Adds an assertion about a subject of which no earlier one speaks.
fn add(
    list: &mut Vec<BoundAssertion>,
    places: &mut BTreeMap<Subject, usize>,
    assertion: BoundAssertion,
) -> Result<(), Want>
    requires index { IsIndex list.old.items places.old }
    requires fresh { about list.old.items (subject_of assertion.body) ≡ None }
    ensures list { OnOk result (list.new.items ≡ list.old.items ++ assertion ∷ []) }
    ensures index { OnOk result (IsIndex list.new.items places.new) }
{
    let place = list.as_slice().len();
    places.insert(subject_of(&assertion.body), place)?;
    list.push(assertion)?;
    Ok(())
}

/// The assertions of a list bound one after the other.
pub fn bound_all(
    alloc: Global,
    image: &Image,
    assertions: &[Assertion],
) -> Result<Indexed, BindRefusal>
    requires { All AssertsWithin assertions.now }
    ensures value { MatchResult result (λ bound. binding image.now assertions.now ≡ Ok bound.list.items) (IsRefusalOf (binding image.now assertions.now)) }
    ensures index { IfOk result (λ bound. IsIndex bound.list.items bound.places) }
    ensures sound { IfOk result (λ bound. IsSound bound.list.items) }
    ensures code { IfOk result (λ bound. All (SpeaksOfCodeIn image.now) bound.list.items) }
{
    let mut list = Vec::new(alloc);
    let mut places = BTreeMap::new(alloc);
    for assertion in assertions {
        let bound = bound_behind(alloc, image, &list, &places, assertion)?;
        add(&mut list, &mut places, bound)?;
    }
    Ok(Indexed { list, places })
}
