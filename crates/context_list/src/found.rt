//! Contexts that were found.
ghost use Rattle.std.specs.Prelude.{◌≡◌, ◌<◌, [], Some, IfOk, OnErr, length, slice_get};
ghost use Rattle.context_list.specs.Numbered.{IsNumberOf, IsPut};

use crate::codes::code_of;
use bt_base::Want;
use std::alloc::Global;
use std::collections::BTreeMap;
use std::marker::Model;
use wcet_report::Context;

/// Contexts by subprogram, each once, in the order in which they were found.
///
/// It is seen as their list. A look-up takes as many steps as the logarithm of their number.
#[derive(Drop)]
pub struct Found {
    list: Vec<(u32, Context)>,
    numbers: BTreeMap<Vec<i64>, usize>,
}

impl Model for Found {
    ghost use Rattle.std.specs.Prelude.{List};
    ghost use Rattle.context_list.specs.Numbered.{AreNumbered, One};

    ghost Value = { List One };

    ghost view = { λ found. found.list.items };

    ghost invariant = { λ found. AreNumbered found.list.items found.numbers };
}

impl Found {
    /// No context yet.
    pub fn none(alloc: Global) -> Found
        ensures { result ≡ [] }
    {
        Found {
            list: Vec::new(alloc),
            numbers: BTreeMap::new(alloc),
        }
    }

    /// How many there are.
    pub fn len(&self) -> usize
        ensures { result ≡ length self.now }
    {
        self.list.len()
    }

    /// The subprogram and context with a number.
    pub fn get(&self, number: usize) -> &(u32, Context)
        requires { number < length self.now }
        ensures { slice_get self.now number ≡ Some result.now }
    {
        &self.list[number]
    }

    /// The number of a subprogram's context, if it was found.
    pub fn number_of(
        &self,
        alloc: Global,
        sub: u32,
        context: &Context,
    ) -> Result<Option<usize>, Want>
        ensures { IfOk result (IsNumberOf self.now (sub, context.now)) }
    {
        let code = code_of(alloc, sub, context)?;
        Ok(self.numbers.get(&code).copied())
    }

    /// The number of a subprogram's context, which comes to the end where it wasn't found before. Want changes nothing.
    pub fn put(&mut self, alloc: Global, sub: u32, context: Context) -> Result<usize, Want>
        ensures put { IfOk result (IsPut self.old self.new (sub, context)) }
        ensures unchanged { OnErr result (self.new ≡ self.old) }
    {
        let code = code_of(alloc, sub, &context)?;
        if let Some(number) = self.numbers.get(&code) {
            return Ok(*number);
        }
        let number = self.list.len();
        self.list.reserve(1)?;
        self.numbers.insert(code, number)?;
        match self.list.push((sub, context)) {
            Ok(()) => Ok(number),
            Err(_) => unreachable!(),
        }
    }
}
