//! A text of letters, a line each, some of whose parts are refused memory: they are written without, and no other is.
ghost use Rattle.std.specs.Prelude.{◌<◌, ◌^◌, length};

use crate::parts::{CREWS, Trial, is_taken_up_to, pass};
use crate::rows::{pass_if, pass_told};
use sinks::{Parts, Sink, WriteFailed, put_all};
use std::alloc::{AllocError, Global};
use std::sync::Wait;
use std::sync::atomic::{AtomicU64, Ordering};
use std::test::Fail;
use std::thread::Threads;
use time_and_sales::OutOfMemory;

/// A part for each letter: the letter and a line's end. There is no memory for the parts from `refused.0` on that stand
/// before `refused.1`.
#[derive(Drop)]
struct Letters<'a> {
    letters: &'a [u8],
    refused: (usize, usize),
    /// How many parts were written without memory.
    slow: AtomicU64,
    ghost few: { length letters.now < 2 ^ 24 },
}

impl<'a> Parts for Letters<'a> {
    ghost use Rattle.std.specs.Prelude.{[], ◌∷◌, map};

    ghost texts = { λ it. map (λ letter. letter ∷ 10 ∷ []) it.letters.now };

    fn count(&self) -> usize {
        self.letters.len()
    }

    fn make(&self, alloc: Global, part: usize) -> Result<Vec<u8>, OutOfMemory> {
        if self.refused.0 <= part && part < self.refused.1 {
            return Err(AllocError);
        }
        Vec::from_slice(alloc, &[self.letters[part], b'\n'])
    }

    fn put<K: Sink>(&self, part: usize, sink: &mut K) -> Result<u64, WriteFailed> {
        self.slow.fetch_add(1, Ordering::SeqCst);
        put_all(sink, &[self.letters[part], b'\n'])?;
        Ok(2)
    }
}

/// So many letters that each thread is started for more than one part, if there is one thread.
const LETTERS: &[u8] = b"abcdefghijklmnopqrstuvwxyzABCDEFGHIJKLMN";

const TEXT: &[u8] = b"header\n\
a\nb\nc\nd\ne\nf\ng\nh\ni\nj\nk\nl\nm\nn\no\np\nq\nr\ns\nt\n\
u\nv\nw\nx\ny\nz\nA\nB\nC\nD\nE\nF\nG\nH\nI\nJ\nK\nL\nM\nN\n";

/// The letters, without memory for these parts.
fn letters_without(refused: (usize, usize)) -> Letters<'static> {
    Letters {
        letters: LETTERS,
        refused,
        slow: AtomicU64::new(0),
    }
}

/// Whether a crew writes the whole text where these parts are refused memory, and how many parts without.
fn written_slowly(
    rt: &(impl Threads + Wait + Sync),
    alloc: Global,
    crew: Option<u32>,
    refused: (usize, usize),
) -> Option<u64> {
    let letters = letters_without(refused);
    if is_taken_up_to(rt, alloc, &letters, TEXT, crew, TEXT.len()) {
        Some(letters.slow.load(Ordering::SeqCst))
    } else {
        None
    }
}

/// Parts that are refused memory, and how many parts are written without: a thread that makes two gives up both.
type Row = ((usize, usize), u64, u64);

static ROWS: [Row; 5] = [
    ((0, 0), 0, 0),
    ((0, 40), 40, 40),
    ((0, 1), 1, 2),
    ((1, 2), 1, 2),
    ((39, 40), 1, 2),
];

/// Whether each crew writes the whole text, and as many parts without memory as it should.
fn is_written(
    rt: &(impl Threads + Wait + Sync),
    alloc: Global,
    (refused, least, most): Row,
) -> bool {
    for crew in &CREWS {
        match written_slowly(rt, alloc, *crew, refused) {
            Some(slow) if least <= slow && slow <= most => {}
            _ => return false,
        }
    }
    true
}

/// Whether that is so of each row.
fn are_written(rt: &(impl Threads + Wait + Sync), alloc: Global) -> bool {
    for row in &ROWS {
        if !is_written(rt, alloc, *row) {
            return false;
        }
    }
    true
}

#[test]
fn parts_without_memory_are_written_slowly_and_no_others(rt: HostRuntime) -> Result<(), Fail> {
    pass_if(are_written(&rt, rt.alloc()))
}

#[test]
fn a_text_in_parts_is_whole(rt: HostRuntime) -> Result<(), Fail> {
    pass_told(pass(
        &rt,
        rt.alloc(),
        &letters_without((0, 0)),
        TEXT,
        Trial::Whole,
    ))
}

#[test]
fn a_sink_without_room_has_the_first_bytes(rt: HostRuntime) -> Result<(), Fail> {
    pass_told(pass(
        &rt,
        rt.alloc(),
        &letters_without((0, 0)),
        TEXT,
        Trial::Short,
    ))
}

/// The same where no part is made.
#[test]
fn a_sink_without_room_has_the_first_bytes_of_slow_parts(rt: HostRuntime) -> Result<(), Fail> {
    pass_told(pass(
        &rt,
        rt.alloc(),
        &letters_without((0, 40)),
        TEXT,
        Trial::Short,
    ))
}
