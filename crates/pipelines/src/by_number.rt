//! The work of a pipeline whose inputs are known by their numbers.
ghost use Rattle.std.specs.Prelude.{◌≡◌, ◌==◌, Some, IfOk, length, slice_get, take};
ghost use Rattle.std.specs.Arc.{arc_value};
ghost use Rattle.std.specs.Cmp.Lexicographic.{same_text};
ghost use Rattle.std.specs.Cmp.Rules.{comparing};
ghost use Rattle.std.proofs.Common.{◌∙◌, ap, rules, subst, sym};
ghost use Rattle.std.proofs.lemmas.Bool.{eqb-true};
ghost use Rattle.base.specs.Least.{numbers_below};

use gathering::{Inputs, OutOfMemory, Work};
use std::alloc::Global;
use std::marker::{Brand, Model, PhantomData};
use std::sync::Arc;

/// A name for the list of all inputs of a pipeline. It is there for proofs alone: the proof of a call picks the list.
pub(crate) trait Known<X>: Send + Sync {
    ghost use Rattle.std.specs.Prelude.{List};

    ghost inputs: { List X };
}

impl<X> Known<X> for Brand {
    ghost use Rattle.std.specs.Prelude.{[]};

    ghost inputs = { [] };
}

/// An input of the list that K names. Contracts see its number there, which tells which input it is.
#[derive(Drop)]
pub(crate) struct KnownInput<W: Work, K: Known<W::Input>> {
    number: u32,
    input: Arc<W::Input, Global>,
    list: PhantomData<K>,
}

impl<W: Work, K: Known<W::Input>> Model for KnownInput<W, K> {
    ghost use Rattle.std.specs.Prelude.{◌≡◌, ℕ, Some, slice_get};
    ghost use Rattle.std.specs.Arc.{arc_value};

    ghost Value = { ℕ };

    ghost view = { λ a. a.number };

    ghost invariant = { λ a. slice_get K.inputs a.number ≡ Some (arc_value a.input) };
}

impl<W: Work, K: Known<W::Input>> PartialEq for KnownInput<W, K> {
    ghost eq = { λ a b. a == b };

    ghost laws = { Prim.search (comparing, rules) };

    fn eq(&self, other: &Self) -> bool {
        self.number == other.number
    }
}

impl<W: Work, K: Known<W::Input>> Eq for KnownInput<W, K> {
    ghost laws = { Prim.search (comparing, rules) };
}

/// What a work does, over the numbers of the list that K names. All of them, in order, may be worked on.
#[derive(Drop)]
pub(crate) struct ByNumber<W: Work, K: Known<W::Input>> {
    work: PhantomData<W>,
    list: PhantomData<K>,
}

impl<W: Work, K: Known<W::Input>> Work for ByNumber<W, K> {
    type Input = KnownInput<W, K>;

    type Output = W::Output;

    type Total = W::Total;

    // a value of the input that has the number
    ghost Gives = { λ number output.
        (input : W.Input) × (slice_get K.inputs number ≡ Some input) × W.Gives input output };

    // a total of the first inputs, one for each number
    ghost IsTotalOf = { λ numbers total. W.IsTotalOf (take (length numbers) K.inputs) total };

    ghost IsAdmissible = { λ numbers. (numbers ≡ numbers_below (length K.inputs)) × W.IsAdmissible K.inputs };

    ghost equal_values = { λ a b output same gives.
        (gives.0, ap (slice_get K.inputs) (sym (eqb-true a b same)) ∙ gives.1, gives.2) };

    ghost equal_totals = { λ xs ys same total.
        subst (λ n. W.IsTotalOf (take n K.inputs) total) (sym (ap length (same_text xs ys (sym same)))) };

    fn run(alloc: Global, input: &KnownInput<W, K>) -> Result<W::Output, OutOfMemory> {
        W::run(alloc, &input.input)
    }

    fn empty(alloc: Global) -> W::Total {
        W::empty(alloc)
    }

    fn add(total: &mut W::Total, output: &W::Output) -> Result<(), OutOfMemory> {
        W::add(total, output)
    }
}

/// The numbers of the inputs that K names, in order, each with its input.
pub(crate) fn numbered<W: Work, K: Known<W::Input>>(
    alloc: Global,
    inputs: &Inputs<W>,
) -> Result<Arc<Inputs<ByNumber<W, K>>, Global>, OutOfMemory>
    requires { inputs.now ≡ K.inputs }
    ensures { IfOk result (λ made. arc_value made ≡ numbers_below (length K.inputs)) }
{
    let all = inputs.all();
    let mut items = Vec::with_capacity(alloc, all.len())?;
    for number in 0..all.len() {
        items.push(numbered_input::<W, K>(alloc, number as u32, &all[number])?)?;
    }
    Ok(Arc::new(alloc, Inputs::of(items))?)
}

/// The input of this number.
fn numbered_input<W: Work, K: Known<W::Input>>(
    alloc: Global,
    number: u32,
    input: &Arc<W::Input, Global>,
) -> Result<Arc<KnownInput<W, K>, Global>, OutOfMemory>
    requires { slice_get K.inputs number ≡ Some (arc_value input.now) }
    ensures { IfOk result (λ known. arc_value known ≡ number) }
{
    let input = Arc::try_clone(input)?;
    let known = KnownInput {
        number,
        input,
        list: PhantomData,
    };
    Ok(Arc::new(alloc, known)?)
}
