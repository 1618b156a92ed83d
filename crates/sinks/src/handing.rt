//! A text in parts behind a header: made part by part and written, by the caller alone, or made by threads meanwhile.
ghost use Rattle.std.specs.Prelude.{◌≡◌, ◌<◌, ◌≤◌, ◌^◌, ◌++◌, [], IfErr, OnOk, false, is_err, length};
ghost use Rattle.std.specs.Thread.{IsSync};
ghost use Rattle.sinks.specs.TextParts.{together};
ghost use Rattle.sinks.specs.Written.{IsWritten};

use crate::ahead::Ahead;
use crate::delivering::{WriteFailed, put_all};
use crate::parts::Parts;
use crate::shares::{make_share, put_share};
use crate::sink::Sink;
use sources::DeviceFailed;
use std::alloc::Global;
use std::sync::Wait;
use std::thread::{self, Scope, Threads};

/// Writes a header and the texts of all parts behind it, which the caller makes, and passes them on.
pub fn put_alone<P: Parts, K: Sink>(
    alloc: Global,
    header: &[u8],
    parts: &P,
    sink: &mut K,
) -> Result<(), WriteFailed>
    requires short { length header.now < 2 ^ 32 }
    requires whole { K.has_failed sink.old ≡ false }
    ensures written { IsWritten K.Sink sink.old sink.new (header.now ++ together (P.texts parts.now)) result }
    ensures flushed { OnOk result (K.HasFlushed sink.new) }
{
    put_all(sink, header)?;
    let mut written = header.len() as u64;
    for part in 0..parts.count() {
        let made = make_share(alloc, parts, part, 1);
        match put_share(parts, made, part, 1, sink) {
            Ok(bytes) => written += bytes,
            Err(refused) => return Err(WriteFailed {
                written: written + refused.written,
            }),
        }
    }
    pass_on(sink, written)
}

/// How many shares the parts are dealt in for each thread that may run at once: with more, each has less to make, and
/// the last ones end closer together.
const SHARES_A_THREAD: usize = 16;

/// How many shares there are at most, since the caller starts a thread for each.
const MOST_SHARES: usize = 256;

/// How many threads more are begun than may run at once, at most. One that has ended waits until what is before it is
/// written, with the texts of its share, and others run meanwhile.
const MOST_WAITING: usize = 4;

/// Writes a header and the texts of all parts behind it, and passes them on. Threads make the texts of the parts, some
/// `threads` of them at once, while the caller writes those before them. It waits for them.
pub fn put_parts<R: Threads + Wait + Sync, P: Parts, K: Sink>(
    rt: &R,
    alloc: Global,
    header: &[u8],
    parts: &P,
    threads: u32,
    sink: &mut K,
) -> Result<(), WriteFailed>
    requires short { length header.now < 2 ^ 32 }
    requires whole { K.has_failed sink.old ≡ false }
    ensures written { IsWritten K.Sink sink.old sink.new (header.now ++ together (P.texts parts.now)) result }
    ensures flushed { OnOk result (K.HasFlushed sink.new) }
{
    let (lent, result) = put_by_value(rt, alloc, header, parts, threads, Lent { sink });
    let Lent { sink } = lent;
    take_back(sink);
    result
}

/// A sink that is lent. A scope says nothing of a `&mut` that its closure holds, but it does of a value of a type
/// parameter, which this is there.
#[derive(Drop)]
struct Lent<'a, K> {
    sink: &'a mut K,
}

impl<'a, K: Sink> Sink for Lent<'a, K> {
    ghost use Rattle.std.specs.Prelude.{◌≡◌};
    ghost use Rattle.std.proofs.Common.{refl, ◌∙◌};

    ghost Took = { λ before after bytes.
        (after.sink.ghost_name ≡ before.sink.ghost_name) × K.Took before.sink.now after.sink.now bytes };

    ghost HasFlushed = { λ lent. K.HasFlushed lent.sink.now };

    ghost has_failed = { λ lent. K.has_failed lent.sink.now };

    ghost took_nothing = { λ lent. (refl, K.took_nothing lent.sink.now) };

    ghost took_more = { λ a b c xs ys first more.
        (more.0 ∙ first.0, K.took_more a.sink.now b.sink.now c.sink.now xs ys first.1 more.1) };

    fn put(&mut self, bytes: &[u8]) -> Result<usize, DeviceFailed> {
        self.sink.put(bytes)
    }

    fn flush(&mut self) -> Result<(), DeviceFailed> {
        self.sink.flush()
    }

    fn failed(&self) -> bool {
        self.sink.failed()
    }
}

/// Does nothing, but ties a reference that was given back to the one that was lent.
fn take_back<T>(_lent: &mut T)
    ensures { _lent.new ≡ _lent.old }
{}

/// Does what `put_parts` does, with a sink that it gives back.
fn put_by_value<R: Threads + Wait + Sync, P: Parts, S: Sink + Drop>(
    rt: &R,
    alloc: Global,
    header: &[u8],
    parts: &P,
    threads: u32,
    sink: S,
) -> (S, Result<(), WriteFailed>)
    requires short { length header.now < 2 ^ 32 }
    requires whole { S.has_failed sink ≡ false }
    ensures written { IsWritten S.Sink sink result.0 (header.now ++ together (P.texts parts.now)) result.1 }
    ensures flushed { OnOk result.1 (S.HasFlushed result.0) }
{
    thread::scope(
        thread::scope_env(),
        rt,
        move |scope| -> (S, Result<(), WriteFailed>)
            requires { IsSync P.row × (length header.now < 2 ^ 32) × (S.has_failed sink ≡ false) }
            ensures { IsWritten S.Sink sink result.0
                (header.entry.now ++ together (P.texts parts.entry.now)) result.1
                × OnOk result.1 (S.HasFlushed result.0) }
        {
            let mut sink = sink;
            let result = put_in(scope, rt, alloc, header, parts, threads, &mut sink);
            (sink, result)
        },
    )
}

/// The same, with a scope that waits for the threads.
fn put_in<'s, E, R: Threads + Sync, P: Parts, K: Sink>(
    scope: &Scope<'s, E>,
    rt: &R,
    alloc: Global,
    header: &[u8],
    parts: &'s P,
    threads: u32,
    sink: &mut K,
) -> Result<(), WriteFailed>
    requires short { length header.now < 2 ^ 32 }
    requires whole { K.has_failed sink.old ≡ false }
    ensures written { IsWritten K.Sink sink.old sink.new (header.now ++ together (P.texts parts.now)) result }
    ensures flushed { OnOk result (K.HasFlushed sink.new) }
{
    let all = parts.count();
    let threads = threads as usize;
    let shares = threads.saturating_mul(SHARES_A_THREAD).min(MOST_SHARES);
    let step = (all / shares.max(1)).max(1);
    put_all(sink, header)?;
    let mut written = header.len() as u64;
    let mut ahead = Ahead::new(
        alloc,
        parts,
        threads.saturating_add(threads.min(MOST_WAITING)),
    );
    while ahead.done < all {
        ahead.start(scope, alloc, step, all);
        let first = ahead.done;
        let (count, made) = ahead.take(rt, alloc, all);
        ahead.start(scope, alloc, step, all);
        match put_share(parts, made, first, count, sink) {
            Ok(bytes) => written += bytes,
            Err(refused) => return Err(WriteFailed {
                written: written + refused.written,
            }),
        }
    }
    pass_on(sink, written)
}

/// Passes on what a sink took, which are `written` bytes.
pub(crate) fn pass_on<K: Sink>(sink: &mut K, written: u64) -> Result<(), WriteFailed>
    requires { K.has_failed sink.old ≡ false }
    ensures took { K.Took sink.old sink.new [] }
    ensures failed { K.has_failed sink.new ≡ is_err result }
    ensures flushed { OnOk result (K.HasFlushed sink.new) }
    ensures all { IfErr result (λ failed. failed.written ≡ written) }
{
    match sink.flush() {
        Ok(()) => Ok(()),
        Err(DeviceFailed) => Err(WriteFailed { written }),
    }
}
