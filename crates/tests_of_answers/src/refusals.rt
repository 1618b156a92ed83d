//! `plain` in heaps that have room for more and more, and `plain`, `run`, `answer` and `rehearse` with each allocation
//! of the process refused in turn, and with threads that can't be started: what comes is the right answer, or want of
//! memory.
use crate::answering::{BARS, HEADER, SALES, TWO, is_answered_freely, is_told, settings_of};
use cutting::cut_at;
use executor::{
    Counted, CountedSink, Cut, DayFault, DayFile, Event, LONGEST_FILE, OutOfMemory, Query,
    Rehearsal, RunFault, parse, plain, rehearse, run,
};
use linked_list_allocator::LocalHeap;
use std::alloc::{AllocError, Allocator, Global};
use std::io::{self, Write};
use std::sync::Wait;
use std::test::Fail;
use std::thread::Threads;
use tests_support::{
    BROKEN_EARLIER, Day, Form, MSFT, NAMED, NAMED_TEXT, UNNAMED, UNNAMED_TEXT, file_of,
};

const QUERY: &str = "sales where symbol in MSFT";

/// Whether `plain`, with all that it keeps in this room, answers so.
fn is_told_in<A: Allocator + Copy>(
    room: A,
    file: &DayFile<A>,
    query: &Query<A>,
    want: Result<&str, DayFault>,
) -> Result<bool, OutOfMemory> {
    let answer = plain(room, file, query)?;
    Ok(is_told(&answer, want))
}

/// Whether it answers all sales of `NAMED`, of which the file and the query are in this heap too.
fn is_told_within(heap: &LocalHeap, bytes: &[u8]) -> Result<bool, OutOfMemory> {
    let bytes = Vec::from_slice(heap, bytes)?;
    if bytes.len() as u64 > LONGEST_FILE {
        return Ok(false);
    }
    let file = DayFile::of_bytes(bytes);
    match parse(heap, QUERY) {
        Ok(query) => is_told_in(heap, &file, &query, Ok(NAMED_TEXT)),
        Err(_) => Err(AllocError),
    }
}

#[test]
fn a_refused_growth_is_told_by_plain(rt: HostRuntime) -> Result<(), Fail> {
    let bytes = Day::of(rt.alloc(), &NAMED)?.bytes;
    let mut refused = 0u32;
    for step in 0..400u32 {
        let heap = LocalHeap::new(rt.alloc(), step as usize * 16)?;
        match is_told_within(&heap, bytes.as_slice()) {
            Ok(is_told) => assert!(rt; is_told),
            Err(OutOfMemory) => refused = step,
        }
    }
    assert!(rt; refused > 8 && refused < 399);
    Ok(())
}

/// Two orders whose references fall, the execution of one, a sale of a locate without a name, and an
/// execution of the other order, which is broken before it.
const SOLD: [Form; 7] = [
    Form::R(7, MSFT),
    Form::A(2, 4_105_000),
    Form::A(1, 4_106_000),
    Form::E(1, 40, 9),
    Form::T(8, 34_260, 0, 70, 4_107_000, 10),
    Form::B(11),
    Form::E(2, 30, 11),
];

/// A query, the frames, and the whole text of the answer or the fault.
type AskedRow = (
    &'static str,
    &'static [Form],
    Result<&'static str, DayFault>,
);

/// Queries of symbols.
static ASKED: [AskedRow; 3] = [
    (
        "sales where symbol in MSFT,#9,MSFT",
        &SOLD,
        Ok(
            "time,symbol,kind,price,shares,number\n\
            09:30:01.000000005,MSFT,E,410.6000,40,9\n",
        ),
    ),
    (
        "bars 1 m where symbol in #8,MSFT",
        &SOLD,
        Ok(
            "symbol,start,first,high,low,last,volume,trades,average\n\
            MSFT,09:30:00,410.6000,410.6000,410.6000,410.6000,40,1,410.6000+0/40\n\
            #8,09:31:00,410.7000,410.7000,410.7000,410.7000,70,1,410.7000+0/70\n",
        ),
    ),
    (
        "sales where symbol in ZZZ",
        &[Form::E(1, 40, 9), Form::A(1, 4_105_000)],
        Err(DayFault::UnknownReference {
            place: 0,
            order_no: 1,
        }),
    ),
];

/// Whether `plain` answers so.
fn is_told_by_plain(alloc: Global, asked: &AskedRow) -> Result<bool, Fail> {
    let (query, forms, want) = asked;
    let file = file_of(Day::of(alloc, forms)?.bytes)?;
    let query = parse(alloc, query)?;
    Ok(is_told_in(alloc, &file, &query, *want)?)
}

/// Run also with each allocation of the process refused in turn.
#[test]
fn plain_or_want_of_memory(rt: HostRuntime) -> Result<(), Fail> {
    for asked in &ASKED {
        assert!(rt; is_told_by_plain(rt.alloc(), asked)?);
    }
    Ok(())
}

/// A writer that takes at most `step` bytes a call and `room` in all, of this text alone.
#[derive(Drop)]
struct Expecting<'a> {
    rest: &'a [u8],
    step: usize,
    room: usize,
}

impl<'a> Write for Expecting<'a> {
    fn write(&mut self, buf: &[u8]) -> io::Result<usize> {
        let count = buf.len().min(self.step).min(self.room).min(self.rest.len());
        let (next, rest) = self.rest.split_at(count);
        if next != &buf[..count] {
            return Err(io::Error::from(io::ErrorKind::InvalidData));
        }
        self.rest = rest;
        self.room -= count;
        Ok(count)
    }

    fn flush(&mut self) -> io::Result<()> {
        Ok(())
    }
}

/// What a run over these bytes tells if its writer has room for this many bytes, and how many it has room for then.
fn told_by_run<R: Threads + Wait + Sync>(
    rt: &R,
    alloc: Global,
    bytes: &[u8],
    step: usize,
    room: usize,
) -> (Result<(), RunFault>, usize) {
    let mut source = Counted::of(bytes);
    let rest = UNNAMED_TEXT.as_bytes();
    let mut writer = Expecting { rest, step, room };
    let mut sink = CountedSink::of(&mut writer);
    let settings = settings_of(2, u16::MAX, 4 << 20);
    let told = run(rt, alloc, &mut source, "sales", settings, &mut sink);
    (told, writer.room)
}

/// Run also with each allocation of the process refused in turn, and without some threads, which are started for a
/// day of two MiB.
#[test]
fn run_or_want_of_memory(rt: HostRuntime) -> Result<(), Fail> {
    let mut bytes = Day::of(rt.alloc(), &UNNAMED)?.bytes;
    bytes.resize((2 << 20) + 71, 0)?;
    for (step, room, want) in [
        (100, 10, Err(RunFault::WriteFailed { written: 10 })),
        (2, 75, Ok(())),
    ] {
        let told = told_by_run(&rt, rt.alloc(), bytes.as_slice(), step, room);
        if told == (Err(RunFault::OutOfMemory), room) {
            return Err(Fail::from(AllocError));
        }
        assert!(rt; told == (want, 0));
    }
    Ok(())
}

/// `answer` by two workers, and by the caller's thread alone.
#[test]
fn answer_or_want_of_memory(rt: HostRuntime) -> Result<(), Fail> {
    for crew in [Some(TWO), None] {
        assert!(rt; is_answered_freely(&rt, rt.alloc(), SALES, 2, crew)?);
        assert!(rt; is_answered_freely(&rt, rt.alloc(), BARS, 2, crew)?);
    }
    Ok(())
}

/// A query, frames, and where the morsels but the first begin.
type Asked = (&'static str, &'static [Form], &'static [u64]);

/// Of a day whose one sale is broken.
const REHEARSED: Asked = ("sales", &BROKEN_EARLIER, &[41, 79, 100]);

/// The cut of these frames at these places.
fn cut_of(alloc: Global, forms: &[Form], ends: &[u64]) -> Result<Cut, Fail> {
    let file = file_of(Day::of(alloc, forms)?.bytes)?;
    Ok(cut_at(alloc, &file, ends)?)
}

/// Whether a rehearsal with three partitions and two gatherers has this text, or misses this task of a pipeline.
fn is_rehearsed_of(
    alloc: Global,
    cut: &Cut,
    query: &Query,
    first: &[Event],
    second: &[Event],
    want: Result<&str, (u8, u32)>,
) -> Result<bool, OutOfMemory> {
    let rehearsal = rehearse(alloc, cut, query, 3, 2, first, second)?;
    is_so(alloc, &rehearsal, want)
}

/// The same of what is asked.
fn is_rehearsed(
    alloc: Global,
    asked: Asked,
    first: &[Event],
    second: &[Event],
    want: Result<&str, (u8, u32)>,
) -> Result<bool, Fail> {
    let (query, forms, ends) = asked;
    let query = parse(alloc, query)?;
    let cut = cut_of(alloc, forms, ends)?;
    Ok(is_rehearsed_of(alloc, &cut, &query, first, second, want)?)
}

fn is_so(
    alloc: Global,
    rehearsal: &Rehearsal,
    want: Result<&str, (u8, u32)>,
) -> Result<bool, OutOfMemory> {
    match rehearsal {
        Rehearsal::Finished(answer) => match want {
            Ok(text) => Ok(is_told(answer, Ok(text))),
            Err(_) => Ok(false),
        },
        Rehearsal::Missing { pipeline, task } => Ok(want == Err((*pipeline, *task))),
    }
}

/// A task arrives at a gatherer.
fn at(gatherer: u32, task: u32) -> Event {
    Event::Arrive { gatherer, task }
}

/// Gatherer 1 is merged into gatherer 0.
const MERGE: Event = Event::Merge { into: 0, other: 1 };

/// Trades at the last nanosecond of a minute, and at the first of the next, in two of three partitions.
const MINUTES: [Form; 3] = [
    Form::R(7, MSFT),
    Form::T(7, 34_259, 999_999_999, 100, 4_105_000, 21),
    Form::T(7, 34_260, 0, 200, 4_106_000, 22),
];

/// What is asked of rehearsals, and their answers.
static REHEARSALS: [(Asked, &str); 3] = [
    (REHEARSED, HEADER),
    (
        ("sales", &MINUTES, &[41, 87]),
        "time,symbol,kind,price,shares,number\n\
        09:30:59.999999999,MSFT,P,410.5000,100,21\n\
        09:31:00.000000000,MSFT,P,410.6000,200,22\n",
    ),
    (
        ("bars 1 m", &MINUTES, &[41, 87]),
        "symbol,start,first,high,low,last,volume,trades,average\n\
        MSFT,09:30:00,410.5000,410.5000,410.5000,410.5000,100,1,410.5000+0/100\n\
        MSFT,09:31:00,410.6000,410.6000,410.6000,410.6000,200,1,410.6000+0/200\n",
    ),
];

/// Run also with each allocation of the process refused in turn.
#[test]
fn answers_or_want_of_memory(rt: HostRuntime) -> Result<(), Fail> {
    // Some tasks arrive twice, before and after a merge. The second day has no task 3.
    let first = [
        at(0, 0),
        at(1, 2),
        at(0, 1),
        at(1, 1),
        MERGE,
        at(1, 3),
        at(0, 1),
    ];
    let second = [at(1, 1), at(0, 1), MERGE, at(1, 0), at(0, 2), at(1, 1)];
    for (asked, want) in &REHEARSALS {
        assert!(rt; is_rehearsed(rt.alloc(), *asked, &first, &second, Ok(want))?);
    }
    Ok(())
}

/// Run also with each allocation of the process refused in turn.
#[test]
fn missing_tasks_or_want_of_memory(rt: HostRuntime) -> Result<(), Fail> {
    let all = [at(0, 3), at(1, 1), at(0, 0), at(1, 2), MERGE];
    let lost = [at(0, 3), at(1, 1), Event::Lose { task: 0 }, at(1, 2), MERGE];
    let never_there = [at(0, 3), at(1, 1), at(1, 2), MERGE];
    let second = [at(1, 2), at(0, 0), at(1, 1)];
    let table: [(&[Event], &[Event], Result<&str, (u8, u32)>); 4] = [
        (&all, &second, Ok(HEADER)),
        (&lost, &second, Err((1, 0))),
        (&never_there, &second, Err((1, 0))),
        (&all, &[], Err((2, 0))),
    ];
    for (first, second, want) in table {
        assert!(rt; is_rehearsed(rt.alloc(), REHEARSED, first, second, want)?);
    }
    Ok(())
}
