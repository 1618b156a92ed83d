//! The workers of a pipeline, each on a thread of its own.
ghost use Rattle.std.specs.Prelude.{◌≡◌, ◌<◌, length};
ghost use Rattle.std.specs.Arc.{arc_value};
ghost use Rattle.dispatcher.specs.Seats.{tasks_of, IsSeatOf, IsUnused};

use crate::channel_port::ChannelPort;
use crate::gatherers::{Gatherer, channel_of};
use crate::pipeline::Pipeline;
use crossbeam_channel::Sender;
use dispatcher::{Dispatcher, Seat};
use gathering::{Inputs, Piece, Work};
use std::alloc::Global;
use std::sync::{Arc, Wait};
use std::thread::{Scope, Threads};
use workers::{Gate, Port, work};

impl<'s, G: Gate, R: Threads + Wait + Sync> Pipeline<'s, G, R> {
    /// Starts the crew's workers, each with a seat of its own. One that can't be started is done without. The caller's
    /// thread receives from the channel that is given, and each other gatherer has its own.
    pub(crate) fn start_workers<E, W: Work + 's>(
        &self,
        scope: &Scope<'s, E>,
        inputs: &Arc<Inputs<W>, Global>,
        own: &Sender<Piece<W>>,
        others: &Vec<Gatherer<W>>,
    ) -> Option<()>
        requires some_task { 0 < length (arc_value inputs.now) }
    {
        let (tasks, workers) = (inputs.count(), self.crew.workers);
        let (dispatcher, mut seats) = Dispatcher::new(self.alloc, tasks, workers).ok()?;
        let dispatcher = Arc::new(self.alloc, dispatcher).ok()?;
        while let Some(seat) = seats.pop() {
            let to = channel_of(seats.len(), own, others);
            self.start_worker(scope, inputs, &dispatcher, seat, to);
        }
        Some(())
    }

    /// Starts one worker, if it can be started.
    fn start_worker<E, W: Work + 's>(
        &self,
        scope: &Scope<'s, E>,
        inputs: &Arc<Inputs<W>, Global>,
        dispatcher: &Arc<Dispatcher, Global>,
        seat: Seat,
        to: &Sender<Piece<W>>,
    ) -> Option<()>
        requires tasks { tasks_of (arc_value dispatcher.now) ≡ length (arc_value inputs.now) }
        requires own { IsSeatOf (arc_value dispatcher.now) seat }
        requires unused { IsUnused seat }
    {
        let dispatcher = Arc::try_clone(dispatcher).ok()?;
        let inputs = Arc::try_clone(inputs).ok()?;
        let to = to.clone().ok()?;
        let (alloc, number, gate) = (self.alloc, self.number, self.gate);
        let port = ChannelPort::new(self.rt, to);
        let run = move || -> u32
            requires { (tasks_of (arc_value dispatcher) ≡ length (arc_value inputs))
                × IsSeatOf (arc_value dispatcher) seat × IsUnused seat }
        { work_through(alloc, dispatcher, seat, inputs, port, number, gate) };
        scope.spawn(run).is_ok().then_some(())
    }
}

/// What a worker's thread does, with all that it was given.
fn work_through<W: Work, P: Port<Piece<W>> + Drop, G: Gate>(
    alloc: Global,
    dispatcher: Arc<Dispatcher, Global>,
    mut seat: Seat,
    inputs: Arc<Inputs<W>, Global>,
    mut port: P,
    number: u8,
    gate: &G,
) -> u32
    requires tasks { tasks_of (arc_value dispatcher) ≡ length (arc_value inputs) }
    requires own { IsSeatOf (arc_value dispatcher) seat }
    requires unused { IsUnused seat }
{
    work(
        alloc,
        &dispatcher,
        &mut seat,
        &inputs,
        &mut port,
        number,
        gate,
    )
}
