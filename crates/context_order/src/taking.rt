//! The answers of a table, once all are there.
ghost use Rattle.std.specs.Prelude.{◌≡◌, ◌<◌, ◌++◌, ◌∷◌, [], ℕ, IfOk, OnOk, Some, length, map};
ghost use Rattle.context_order.specs.Filled.{HasAnswer, IsThere};

use bt_base::Want;
use context_answers::Answer;
use std::alloc::Global;

/// Appends the answer of an entry that has one.
fn push_taken(answers: &mut Vec<Answer>, entry: Option<Answer>) -> Result<(), Want>
    requires { IsThere entry }
    ensures { OnOk result (map Some answers.new.items ≡ map Some answers.old.items ++ entry ∷ []) }
{
    match entry {
        Some(answer) => {
            answers.push(answer)?;
            Ok(())
        }
        None => unreachable!(),
    }
}

/// The answers of a table that has all, in their order.
pub fn taken(alloc: Global, mut table: Vec<Option<Answer>>) -> Result<Vec<Answer>, Want>
    requires { (n : ℕ) → n < length table.items → HasAnswer table.items n }
    ensures { IfOk result (λ answers. map Some answers.items ≡ table.items) }
{
    let mut answers = Vec::with_capacity(alloc, table.len())?;
    for place in 0..table.len() {
        let entry = table[place].take();
        push_taken(&mut answers, entry)?;
    }
    Ok(answers)
}
