//! Inputs of the work.
ghost use Rattle.std.specs.Prelude.{◌≡◌, ◌<◌, ◌≤◌, ◌^◌, IfOk, length, sum};
ghost use Rattle.std.specs.Arc.{arc_value};
ghost use Rattle.base.specs.declared.limits.TheConstants.{MOST_TASKS};

use crate::sum::{Number, Sum};
use crate::watch::Watch;
use gathering::{Inputs, OutOfMemory};
use std::alloc::Global;
use std::sync::Arc;

/// Eight numbers of which no two parts have the same sum. Their sum is 255.
pub const NUMBERS: [u64; 8] = [1, 2, 4, 8, 16, 32, 64, 128];

/// The inputs with these numbers, at most `MOST_TASKS`.
pub fn inputs_of(
    alloc: Global,
    watch: &Arc<Watch, Global>,
    numbers: &[u64],
) -> Result<Inputs<Sum>, OutOfMemory>
    requires { length numbers.now ≤ MOST_TASKS }
    ensures { IfOk result (λ inputs. inputs ≡ numbers.now) }
{
    let mut items = Vec::new(alloc);
    for number in numbers {
        let input = Number {
            number: *number,
            watch: Arc::try_clone(watch)?,
        };
        items.push(Arc::new(alloc, input)?)?;
    }
    Ok(Inputs::of(items))
}

/// The inputs with these numbers, at most `MOST_TASKS`, to be shared.
pub fn shared_inputs_of(
    alloc: Global,
    watch: &Arc<Watch, Global>,
    numbers: &[u64],
) -> Result<Arc<Inputs<Sum>, Global>, OutOfMemory>
    requires { length numbers.now ≤ MOST_TASKS }
    ensures { IfOk result (λ inputs. arc_value inputs ≡ numbers.now) }
{
    Ok(Arc::new(alloc, inputs_of(alloc, watch, numbers)?)?)
}
