//! One pipeline on threads.
ghost use Rattle.std.specs.Prelude.{◌≡◌, ◌<◌, length, IfOk, OnOk};
ghost use Rattle.std.specs.Arc.{arc_value};
ghost use Rattle.gathering.specs.Views.{IsComplete};

use crate::by_number::{Known, numbered};
use crate::gatherers::{gather_all, gather_until_covered, merge_all, start_gatherers};
use gathering::{Gathering, Inputs, OutOfMemory, Piece, TotalRefused, Work};
use outcomes::Crew;
use std::alloc::{AllocError, Global};
use std::marker::Brand;
use std::sync::{Arc, Wait};
use std::thread::{self, Scope, Threads};
use workers::{Gate, run_missing};

/// A pipeline of this number, who works on it, and what all of its threads are given.
///
/// If there is a task, it starts the crew's workers on threads of their own. The crew's gatherers gather: the caller's
/// thread, and if there are more each on a thread of its own. A worker sends its pieces to the gatherer of its number
/// modulo theirs. The caller's thread runs itself the tasks whose pieces no worker brought: one that couldn't be made
/// or sent is among them. A thread, a seat or a channel that can't be had is done without.
///
/// It waits for the pieces: with one gatherer until all tasks are covered, whatever a slow worker still holds,
/// with several until all workers have ended, and then merges what was gathered.
#[derive(Drop)]
pub(crate) struct Pipeline<'s, G: Gate, R> {
    pub(crate) rt: &'s R,
    pub(crate) alloc: Global,
    pub(crate) crew: Crew,
    pub(crate) gate: &'s G,
    pub(crate) number: u8,
}

impl<'s, G: Gate, R: Threads + Wait + Sync> Pipeline<'s, G, R> {
    /// The total of all inputs. It waits at the end for all workers. It is refused if memory was refused to the
    /// caller's thread.
    pub(crate) fn total<W: Work>(&self, inputs: &Inputs<W>) -> Result<W::Total, OutOfMemory>
        ensures total { IfOk result (λ total. W.IsTotalOf inputs.now total) }
        ensures admissible { OnOk result (W.IsAdmissible inputs.now) }
    {
        thread::scope(
            thread::scope_env(),
            self.rt,
            move |scope| -> Result<W::Total, OutOfMemory>
                ensures total { IfOk result (λ total. W.IsTotalOf inputs.entry.now total) }
                ensures admissible { OnOk result (W.IsAdmissible inputs.entry.now) }
            { self.total_in(scope, inputs) },
        )
    }

    /// The total of all inputs, whose workers the scope waits for.
    pub(crate) fn total_in<E, W: Work + 's>(
        &self,
        scope: &Scope<'s, E>,
        inputs: &Inputs<W>,
    ) -> Result<W::Total, OutOfMemory>
        ensures total { IfOk result (λ total. W.IsTotalOf inputs.now total) }
        ensures admissible { OnOk result (W.IsAdmissible inputs.now) }
    {
        self.total_of_known::<E, W, Brand>(scope, inputs)
    }

    /// The total of the inputs that K names. The tasks know them by number, so that pieces are gathered without a look
    /// at what their inputs hold.
    fn total_of_known<E, W: Work + 's, K: Known<W::Input> + 's>(
        &self,
        scope: &Scope<'s, E>,
        inputs: &Inputs<W>,
    ) -> Result<W::Total, OutOfMemory>
        requires known { inputs.now ≡ K.inputs }
        ensures total { IfOk result (λ total. W.IsTotalOf inputs.now total) }
        ensures admissible { OnOk result (W.IsAdmissible inputs.now) }
    {
        let inputs = numbered::<W, K>(self.alloc, inputs)?;
        self.total_of_shared(scope, &inputs)
    }

    /// The total of inputs that threads may share.
    fn total_of_shared<E, W: Work + 's>(
        &self,
        scope: &Scope<'s, E>,
        inputs: &Arc<Inputs<W>, Global>,
    ) -> Result<W::Total, OutOfMemory>
        ensures total { IfOk result (λ total. W.IsTotalOf (arc_value inputs.now) total) }
        ensures admissible { OnOk result (W.IsAdmissible (arc_value inputs.now)) }
    {
        let mut gathering = Gathering::new(self.alloc, Arc::try_clone(inputs)?)?;
        self.gather(scope, inputs, &mut gathering);
        self.complete(inputs, gathering)
    }

    /// Runs the tasks that are not covered, and gives the total of all inputs.
    fn complete<W: Work>(
        &self,
        inputs: &Arc<Inputs<W>, Global>,
        mut gathering: Gathering<W>,
    ) -> Result<W::Total, OutOfMemory>
        requires own { gathering.inputs ≡ arc_value inputs.now }
        ensures total { IfOk result (λ total. W.IsTotalOf (arc_value inputs.now) total) }
        ensures admissible { OnOk result (W.IsAdmissible (arc_value inputs.now)) }
    {
        run_missing(self.alloc, &mut gathering, inputs, self.number, self.gate)?;
        self.gate.done(self.number);
        total_of(gathering)
    }

    /// Gathers what the crew's workers bring.
    fn gather<E, W: Work + 's>(
        &self,
        scope: &Scope<'s, E>,
        inputs: &Arc<Inputs<W>, Global>,
        gathering: &mut Gathering<W>,
    )
        ensures { gathering.new.inputs ≡ gathering.old.inputs }
    {
        if inputs.count() == 0 {
            return;
        }
        let Ok((to, from)) = crossbeam_channel::unbounded::<Piece<W>, Global>(self.alloc) else {
            return;
        };
        let others = start_gatherers(scope, self.rt, self.alloc, inputs, self.crew.gatherers);
        self.start_workers(scope, inputs, &to, &others);
        drop(to);
        if others.is_empty() {
            gather_until_covered(self.rt, gathering, &from, inputs.count());
        } else {
            gather_all(self.rt, gathering, &from);
            merge_all(self.rt, gathering, others);
        }
    }
}

/// The total of a gathering in which no task is missing.
fn total_of<W: Work>(gathering: Gathering<W>) -> Result<W::Total, OutOfMemory>
    requires { IsComplete gathering }
    ensures total { IfOk result (λ total. W.IsTotalOf gathering.inputs total) }
    ensures admissible { OnOk result (W.IsAdmissible gathering.inputs) }
{
    match gathering.total() {
        Ok(total) => Ok(total),
        Err(TotalRefused::Memory { gathering: _ }) => Err(AllocError),
        Err(TotalRefused::Missing { gathering: _ }) => unreachable!(),
    }
}
