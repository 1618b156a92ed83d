//! Workers on the thread of the test.
ghost use Rattle.std.specs.Prelude.{◌≡◌};

use dispatcher::Dispatcher;
use linked_list_allocator::LocalHeap;
use pipelines::{ChannelPort, FreeGate, OutOfMemory, Piece, Port, work};
use std::alloc::Global;
use std::test::Fail;
use tests_support::{KeepingPort, NUMBERS, Sum, Watch, inputs_of};

/// Keeps pieces, but refuses the first one of a task.
#[derive(Drop)]
struct Picky {
    port: KeepingPort<Piece<Sum>>,
    refuses: Option<u32>,
}

impl Port<Piece<Sum>> for Picky {
    ghost taken = { λ picky. picky.port };

    ghost Tells = { Unit {0} };

    fn send(&mut self, piece: Piece<Sum>) -> Result<(), Piece<Sum>> {
        if self.refuses == Some(piece.number()) {
            self.refuses = None;
            return Err(piece);
        }
        self.port.send(piece)
    }
}

/// How many pieces a worker that is alone was refused by this port, over eight tasks.
fn refused_by<P: Port<Piece<Sum>>>(alloc: Global, port: &mut P) -> Result<u32, OutOfMemory> {
    let inputs = inputs_of(alloc, &Watch::shared(alloc)?, &NUMBERS)?;
    let (dispatcher, mut seats) = Dispatcher::new(alloc, 8, 1)?;
    let mut seat = seats.pop().unwrap();
    Ok(work(alloc, &dispatcher, &mut seat, &inputs, port, 1, &FreeGate))
}

#[test]
fn a_refused_piece_is_sent_at_the_second_giving(rt: HostRuntime) -> Result<(), Fail> {
    let alloc = rt.alloc();
    for (refuses, order) in [
        (None, [0, 1, 2, 3, 4, 5, 6, 7]),
        (Some(0), [1, 2, 3, 4, 5, 6, 7, 0]),
        (Some(1), [0, 2, 3, 4, 5, 6, 7, 1]),
    ] {
        let mut picky = Picky {
            port: KeepingPort::new(alloc),
            refuses,
        };
        let refused = refused_by(alloc, &mut picky)?;
        let sent = picky.port.items().iter().map(|piece| piece.number());
        assert!(rt; sent.eq(order) && refused == u32::from(refuses.is_some()));
    }
    Ok(())
}

/// How many pieces are refused by a port in a heap of this size, if each is refused at both givings and the others are
/// kept.
fn refused_in(alloc: Global, size: usize) -> Result<Option<u32>, OutOfMemory> {
    let heap = LocalHeap::new(alloc, size)?;
    let mut port = KeepingPort::new(&heap);
    let refused = refused_by(alloc, &mut port)?;
    let kept = 8usize.wrapping_sub(refused as usize / 2);
    Ok((refused % 2 == 0 && port.items().len() == kept).then_some(refused))
}

#[test]
fn a_port_without_memory_refuses_both_givings(rt: HostRuntime) -> Result<(), Fail> {
    for units in 1..100 {
        let Some(refused) = refused_in(rt.alloc(), 16 * units)? else {
            return Err(Fail::new("a piece was refused once"));
        };
        if refused == 0 {
            assert!(rt; units > 1);
            return Ok(());
        }
    }
    Err(Fail::new("no heap is large enough"))
}

#[test]
fn nobody_receives(rt: HostRuntime) -> Result<(), Fail> {
    let (to, from) = crossbeam_channel::unbounded::<Piece<Sum>, Global>(rt.alloc())?;
    drop(from);
    let mut port = ChannelPort::new(&rt, to);
    assert!(rt; refused_by(rt.alloc(), &mut port)? == 16);
    Ok(())
}
