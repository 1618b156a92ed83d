//! What runs over devices do, and what they answer.
use crate::answering::settings_of;
use executor::{Counted, CountedSink, RunFault, Sink, run};
use std::alloc::Global;
use std::sync::Wait;
use std::test::Fail;
use std::thread::Threads;
use tests_support::{Day, InterruptedWriter, Trickle, UNNAMED, UNNAMED_TEXT};

/// How many bytes a writer takes a call, which call of it fails, what a run over `UNNAMED` is answered, how many
/// bytes of the text the writer has taken then, and how many calls there were. The last call of a text is a flush.
type Ending = (usize, u32, Result<(), RunFault>, usize, u32);

const ENDINGS: [Ending; 3] = [
    (1, 100, Ok(()), 75, 76),
    (2, 100, Ok(()), 75, 39),
    (10, 1, Err(RunFault::WriteFailed { written: 10 }), 10, 2),
];

/// Whether a run over these bytes ends so.
fn is_ended<R: Threads + Wait + Sync>(
    rt: &R,
    alloc: Global,
    bytes: &[u8],
    ending: &Ending,
) -> bool {
    let (step, failing, want, taken, calls) = ending;
    let mut source = Counted::of(bytes);
    let mut writer = InterruptedWriter::of(alloc, *step, *failing);
    let mut sink = CountedSink::of(&mut writer);
    let told = run(
        rt,
        alloc,
        &mut source,
        "sales",
        settings_of(2, 1, 71),
        &mut sink,
    );
    let text = UNNAMED_TEXT.as_bytes().get(..*taken);
    told == *want && writer.calls == *calls && Some(writer.taken.as_slice()) == text
}

#[test]
fn a_failed_sink_has_taken_as_many_bytes_as_are_told(rt: HostRuntime) -> Result<(), Fail> {
    let bytes = Day::of(rt.alloc(), &UNNAMED)?.bytes;
    for ending in &ENDINGS {
        assert!(rt; is_ended(&rt, rt.alloc(), bytes.as_slice(), ending));
    }
    Ok(())
}

/// 75 calls of the writer write one byte each, and the last one flushes.
#[test]
fn a_run_ends_at_a_writers_first_error(rt: HostRuntime) -> Result<(), Fail> {
    let bytes = Day::of(rt.alloc(), &UNNAMED)?.bytes;
    for call in 0..76u32 {
        let written = u64::from(call);
        let want = Err(RunFault::WriteFailed { written });
        let ending = (1, call, want, call as usize, call + 1);
        assert!(rt; is_ended(&rt, rt.alloc(), bytes.as_slice(), &ending));
    }
    Ok(())
}

/// How many bytes a writer takes a call, which call of it is interrupted, what it is given, or nothing if it is
/// flushed, and what `told_of` says.
type Calling = (usize, u32, Option<&'static [u8]>, Option<usize>);

static CALLINGS: [Calling; 6] = [
    (1, 0, Some(b"ab"), None),
    (0, 1, Some(b"ab"), None),
    (0, 1, Some(b""), Some(0)),
    (1, 1, Some(b"ab"), Some(1)),
    (1, 0, None, None),
    (1, 1, None, Some(0)),
];

/// How many bytes a sink over such a writer takes, none if it answers that the device failed; and whether it has failed
/// then.
fn told_of(writer: &mut InterruptedWriter, text: Option<&[u8]>) -> (Option<usize>, bool) {
    let mut sink = CountedSink::of(writer);
    let told = match text {
        Some(text) => sink.put(text).ok(),
        None => sink.flush().ok().map(|()| 0),
    };
    (told, sink.failed())
}

#[test]
fn an_error_of_a_writer_is_a_failure(rt: HostRuntime) {
    for (step, interrupted, text, want) in &CALLINGS {
        let mut writer = InterruptedWriter::of(rt.alloc(), *step, *interrupted);
        let told = told_of(&mut writer, *text);
        assert!(rt; told == (*want, want.is_none()));
    }
}

#[test]
fn a_writer_is_called_once_a_call_and_never_after_its_error(rt: HostRuntime) {
    for (step, interrupted, text, want) in &CALLINGS {
        let mut writer = InterruptedWriter::of(rt.alloc(), *step, *interrupted);
        let _ = told_of(&mut writer, *text);
        assert!(rt; writer.calls == 1 && writer.taken.len() == want.unwrap_or(0));
    }
}

/// Whether a run with this limit is answered so, over these bytes and a source that fails once it was called so often;
/// the sink has nothing then but a whole text.
fn is_trickled<R: Threads + Wait + Sync>(
    rt: &R,
    alloc: Global,
    bytes: &[u8],
    calls: u32,
    limit: u32,
    want: Result<(), RunFault>,
) -> bool {
    let mut source = Trickle::of(bytes, calls);
    let mut written = Vec::new(alloc);
    let mut sink = CountedSink::of(&mut written);
    let told = run(
        rt,
        alloc,
        &mut source,
        "sales",
        settings_of(2, 1, limit),
        &mut sink,
    );
    let text = if want.is_ok() { UNNAMED_TEXT } else { "" };
    told == want && written.as_slice() == text.as_bytes()
}

#[test]
fn a_source_that_fails_or_is_too_long_leaves_the_sink_alone(rt: HostRuntime) -> Result<(), Fail> {
    let bytes = Day::of(rt.alloc(), &UNNAMED)?.bytes;
    for calls in 0..74 {
        let want = if calls < 72 {
            Err(RunFault::ReadFailed)
        } else {
            Ok(())
        };
        assert!(rt; is_trickled(&rt, rt.alloc(), bytes.as_slice(), calls, 71, want));
    }
    let too_long = Err(RunFault::TooLong { limit: 70 });
    assert!(rt; is_trickled(&rt, rt.alloc(), bytes.as_slice(), 74, 70, too_long));
    Ok(())
}
