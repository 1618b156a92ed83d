//! A file system in memory, each of whose files holds one day.
ghost use Rattle.std.specs.Prelude.{◌≡◌, ◌≢◌, ◌≤◌, ◌<◌, Some, codes, drop, false, length, string_bytes, take};
ghost use Rattle.command_line.specs.Outcomes.{Did, device, of_known};

use command_line::{
    Counted, DayFiles, DeviceFailed, Job, OpenDay, ReadsAt, Sink, known_files_are_answered, start,
};
use std::alloc::Global;
use std::io::{self, Read};
use std::sync::Wait;
use std::thread::Threads;

/// Files that hold the same bytes, and are regular.
#[derive(Drop)]
struct HeldDays<'a> {
    bytes: &'a [u8],
}

/// One of them, of which `rest` is left to whoever reads it in order.
#[derive(Drop)]
struct HeldDay<'a> {
    bytes: &'a [u8],
    rest: &'a [u8],
}

/// Copies as many first bytes as have room, and says how many.
fn fill(from: &[u8], into: &mut [u8]) -> usize
    ensures len { length into.new ≡ length into.old }
    ensures count { result ≤ length into.new }
    ensures within { result ≤ length from.now }
    ensures same { take result into.new ≡ take result from.now }
    ensures all { result ≡ 0 → 0 < length into.new → length from.now ≡ 0 }
{
    let count = from.len().min(into.len());
    into[..count].copy_from_slice(&from[..count]);
    count
}

impl<'a> Read for HeldDay<'a> {
    ghost remaining = { λ day. Some day.rest.now };

    fn read(&mut self, buf: &mut [u8]) -> io::Result<usize> {
        let count = fill(self.rest, buf);
        self.rest = &self.rest[count..];
        Ok(count)
    }
}

impl<'a> ReadsAt for HeldDay<'a> {
    ghost contents = { λ day. Some day.bytes.now };

    fn get(&self, place: u64, into: &mut [u8]) -> Result<usize, DeviceFailed> {
        let start = place.min(self.bytes.len() as u64) as usize;
        Ok(fill(&self.bytes[start..], into))
    }

    fn is_same(&self, other: &Self) -> bool {
        self.bytes == other.bytes
    }
}

impl<'a> OpenDay for HeldDay<'a> {
    ghost Tells = { λ day told. told ≡ Some (length day.bytes.now) };

    fn regular_length(&self) -> Option<u64> {
        Some(self.bytes.len() as u64)
    }
}

impl<'a> DayFiles for HeldDays<'a> {
    type File = HeldDay<'a>;

    ghost Opens = { λ days path opened. opened ≡ Some (record { bytes = days.bytes; rest = days.bytes }) };

    fn open_day(&self, _path: &str) -> Option<HeldDay<'a>> {
        Some(HeldDay {
            bytes: self.bytes,
            rest: self.bytes,
        })
    }
}

/// Does a job over a file system each of whose files holds this day, which also stands on standard input.
pub(crate) fn start_over<R: Threads + Wait + Sync, K: Sink, L: Sink>(
    rt: &R,
    alloc: Global,
    day: &[u8],
    job: &Job,
    out: &mut K,
    errors: &mut L,
) -> u8
    requires out { K.has_failed out.old ≡ false }
    requires errors { L.has_failed errors.old ≡ false }
    ensures answered { string_bytes job.now.file ≢ codes "-" →
        Did job.now (device K.Sink out.old out.new) (device L.Sink errors.old errors.new) result
        (of_known job.now.settings.limit day.now) }
{
    known_files_are_answered::<HeldDays<'_>, K, L>();
    let mut input = Counted::of(day);
    let files = HeldDays { bytes: day };
    start(rt, alloc, &files, &mut input, job, out, errors)
}
