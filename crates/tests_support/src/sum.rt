//! The work: each input is a number and has that number as its value, and the total is the sum.
ghost use Rattle.std.specs.Prelude.{◌≡◌, ◌==◌, ◌<◌, ◌^◌, sum};
ghost use Rattle.std.specs.Cmp.Lexicographic.{same_text};
ghost use Rattle.std.specs.Cmp.Rules.{comparing};
ghost use Rattle.std.proofs.Common.{rules, ◌∙◌, ap, sym};
ghost use Rattle.std.proofs.lemmas.Bool.{eqb-true};

use crate::watch::Watch;
use gathering::{OutOfMemory, Work};
use std::alloc::Global;
use std::marker::Model;
use std::sync::Arc;

/// An input. Contracts see its number.
#[derive(Drop)]
pub struct Number {
    pub number: u64,
    pub watch: Arc<Watch, Global>,
}

impl Model for Number {
    ghost use Rattle.std.specs.Prelude.{ℕ};

    ghost Value = { ℕ };

    ghost view = { λ a. a.number };
}

impl PartialEq for Number {
    ghost eq = { λ a b. a == b };

    ghost laws = { Prim.search (comparing, rules) };

    fn eq(&self, other: &Number) -> bool {
        self.watch.compare();
        self.number == other.number
    }
}

impl Eq for Number {
    ghost laws = { Prim.search (comparing, rules) };
}

/// The value of an input. Contracts see its number.
#[derive(Drop)]
pub struct Value {
    pub number: u64,
    pub watch: Arc<Watch, Global>,
}

impl Model for Value {
    ghost use Rattle.std.specs.Prelude.{ℕ};

    ghost Value = { ℕ };

    ghost view = { λ a. a.number };
}

/// The work whose total is the sum of its inputs. Lists of inputs with a sum below 2^128 may be
/// worked on.
#[derive(Drop)]
pub struct Sum;

impl Work for Sum {
    type Input = Number;

    type Output = Value;

    type Total = u128;

    ghost Gives = { λ input value. value ≡ input };

    ghost IsTotalOf = { λ inputs total. total ≡ sum inputs };

    ghost IsAdmissible = { λ inputs. sum inputs < 2 ^ 128 };

    ghost equal_values = { λ a b value same gives. gives ∙ eqb-true a b same };

    ghost equal_totals = { λ xs ys same total is. is ∙ ap sum (sym (same_text xs ys (sym same))) };

    fn run(_alloc: Global, input: &Number) -> Result<Value, OutOfMemory> {
        input.watch.begin_run(input.number)?;
        Ok(Value {
            number: input.number,
            watch: Arc::try_clone(&input.watch)?,
        })
    }

    fn empty(_alloc: Global) -> u128 {
        0
    }

    fn add(total: &mut u128, output: &Value) -> Result<(), OutOfMemory> {
        output.watch.begin_addition()?;
        *total += output.number as u128;
        Ok(())
    }
}
