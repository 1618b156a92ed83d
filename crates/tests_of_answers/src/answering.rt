//! What is asked in the tests, in which ways, and whether it is answered so.
ghost use Rattle.std.specs.Prelude.{◌≡◌, ◌<◌, ◌≤◌};
ghost use Rattle.base.specs.declared.limits.TheConstants.{MOST_PARTITIONS};

use cutting::cut;
use executor::{
    Answer, Crew, DayFault, Division, FreeGate, Gate, LONGEST_FILE, OutOfMemory, Query, Settings,
    answer, answer_alone, answer_blocks, answer_blocks_alone, parse,
};
use std::alloc::{AllocError, Allocator, Global};
use std::sync::{Arc, Wait};
use std::test::Fail;
use std::thread::Threads;
use tests_support::{BROKEN_EARLIER, Day, Form, Hold, NAMED, Warden, file_of, in_memory};

/// The text of a listing without sales.
pub const HEADER: &str = "time,symbol,kind,price,shares,number\n";

/// A query, frames, and the text of the answer.
pub type Asked = (&'static str, &'static [Form], &'static str);

/// Of the sales of a day whose one sale is broken.
pub const SALES: Asked = ("sales", &BROKEN_EARLIER, HEADER);

/// Of the bars of a day with one sale.
pub const BARS: Asked = (
    "bars 1 m",
    &NAMED,
    "symbol,start,first,high,low,last,volume,trades,average\n\
    MSFT,09:30:00,410.5000,410.5000,410.5000,410.5000,40,1,410.5000+0/40\n",
);

/// Whether an answer is this text, or this fault.
pub fn is_told<A: Allocator>(answer: &Answer<A>, want: Result<&str, DayFault>) -> bool {
    match answer {
        Answer::Printed(text) => want.is_ok_and(|want| text.bytes() == want.as_bytes()),
        Answer::Faulty(fault) => want == Err(*fault),
    }
}

/// Two workers.
pub const TWO: Crew = Crew {
    workers: 2,
    gatherers: 1,
};

/// Settings with `workers` workers, at least 1 and at most 64, and with the least size of a morsel and this limit, both
/// in bytes.
pub fn settings_of(workers: u32, morsel: u16, limit: u32) -> Settings {
    Settings {
        crew: Crew {
            workers: workers.clamp(1, 64),
            gatherers: 1,
        },
        morsel: u64::from(morsel.max(1)),
        parts: 3,
        limit: u64::from(limit).min(LONGEST_FILE),
    }
}

/// What the tasks of the first pipeline are.
#[derive(Clone, Copy)]
pub enum Way {
    /// Morsels of a cut, one for each frame.
    Morsels,
    /// Blocks of a source that is read at places: of 34 bytes, one for each frame, or one without a crew.
    Blocks,
}

/// Both ways.
pub const WAYS: [Way; 2] = [Way::Morsels, Way::Blocks];

/// The answer to a query over these frames, with `parts` partitions: that of a crew, or of the caller's thread alone.
pub fn answer_of_day<G: Gate, R: Threads + Wait + Sync>(
    rt: &R,
    alloc: Global,
    way: Way,
    query: &str,
    forms: &[Form],
    parts: u32,
    crew: Option<Crew>,
    gate: &G,
) -> Result<Answer, Fail>
    requires { (0 < parts) × (parts ≤ MOST_PARTITIONS) }
{
    let query = parse(alloc, query)?;
    let bytes = Day::of(alloc, forms)?.bytes;
    match way {
        Way::Morsels => by_morsels(rt, alloc, bytes, &query, parts, crew, gate),
        Way::Blocks => by_blocks(rt, alloc, bytes.as_slice(), &query, parts, crew, gate),
    }
}

fn by_morsels<G: Gate, R: Threads + Wait + Sync>(
    rt: &R,
    alloc: Global,
    bytes: Vec<u8>,
    query: &Query,
    parts: u32,
    crew: Option<Crew>,
    gate: &G,
) -> Result<Answer, Fail>
    requires { (0 < parts) × (parts ≤ MOST_PARTITIONS) }
{
    let cut = cut(alloc, &file_of(bytes)?, 1)?;
    let answer = match crew {
        Some(crew) => answer(rt, alloc, &cut, query, parts, crew, gate),
        None => answer_alone(alloc, &cut, query, parts, gate),
    };
    Ok(answer?)
}

fn by_blocks<G: Gate, R: Threads + Wait + Sync>(
    rt: &R,
    alloc: Global,
    bytes: &[u8],
    query: &Query,
    parts: u32,
    crew: Option<Crew>,
    gate: &G,
) -> Result<Answer, Fail>
    requires { (0 < parts) × (parts ≤ MOST_PARTITIONS) }
{
    let Ok(source) = Arc::new(alloc, in_memory(bytes)) else {
        return Err(Fail::from(AllocError));
    };
    let mut settings = settings_of(1, 1, u32::MAX);
    settings.parts = parts;
    let answer = match crew {
        Some(crew) => {
            settings.crew = crew;
            let blocks = (bytes.len() / 33).clamp(1, 64) as u32;
            let division = Division { bytes: 34, blocks };
            answer_blocks(rt, alloc, &source, division, query, settings, gate)
        }
        None => answer_blocks_alone(alloc, &source, query, settings, gate),
    };
    Ok(answer?)
}

/// Whether a query is answered so, with `parts` partitions, by a crew, or by the caller's thread alone.
pub fn is_answered<G: Gate, R: Threads + Wait + Sync>(
    rt: &R,
    alloc: Global,
    way: Way,
    asked: Asked,
    parts: u32,
    crew: Option<Crew>,
    gate: &G,
) -> Result<bool, Fail>
    requires { (0 < parts) × (parts ≤ MOST_PARTITIONS) }
{
    let (query, forms, want) = asked;
    let answer = answer_of_day(rt, alloc, way, query, forms, parts, crew, gate)?;
    Ok(is_told(&answer, Ok(want)))
}

/// Whether it is answered so in both ways, without a gate.
pub fn is_answered_freely<R: Threads + Wait + Sync>(
    rt: &R,
    alloc: Global,
    asked: Asked,
    parts: u32,
    crew: Option<Crew>,
) -> Result<bool, Fail>
    requires { (0 < parts) × (parts ≤ MOST_PARTITIONS) }
{
    for way in WAYS {
        if !is_answered(rt, alloc, way, asked, parts, crew, &FreeGate)? {
            return Ok(false);
        }
    }
    Ok(true)
}

/// Whether it is answered so in both ways, with 64 partitions, by a crew that is held, without a run of the caller's
/// own, and whether a hold ends in vain.
pub fn is_answered_under<R: Threads + Wait + Sync>(
    rt: &R,
    alloc: Global,
    holds: &[Hold],
    asked: Asked,
    crew: Crew,
    in_vain: bool,
) -> Result<bool, Fail> {
    for way in WAYS {
        let gate = Warden::of(alloc, holds)?;
        let is_answered = is_answered(rt, alloc, way, asked, 64, Some(crew), &gate)?;
        if !is_answered || gate.is_run_by_caller() || gate.never_gave_up() == in_vain {
            return Ok(false);
        }
    }
    Ok(true)
}
