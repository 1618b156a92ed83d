//! Day files in frames and in morsels: cut by a target, at places, and while they come. What comes is the right cut, or
//! the right fault, or want of memory.
use crate::days::named;
use crate::rows::pass_if;
use cutting::{CutFault, Cutter, cut, cut_at, one_cut};
use day_file::{Counted, Cut, DayFile, LONGEST_FILE, check, frames, one_reading};
use std::alloc::{AllocError, Global};
use std::test::Fail;
use tests_support::file_of;

/// How a day file is cut: by a target, by a `Cutter` for a target that is fed pieces of these sizes by turns, or at
/// these ends.
#[derive(Clone, Copy)]
enum Way {
    By(u64),
    Fed(u64, &'static [usize]),
    At(&'static [u64]),
}

/// Whether the cutter takes the piece.
fn takes(cutter: &mut Cutter, piece: &[u8]) -> bool {
    let left = LONGEST_FILE - cutter.length();
    let mut reader = piece;
    cutter.feed(&mut Counted::of(&mut reader), left) == Ok(piece.len())
}

/// The cut of the bytes, which are fed in pieces of these sizes by turns. A piece that is refused is fed again.
fn fed(alloc: Global, bytes: &[u8], target: u64, sizes: &[usize]) -> Result<Cut, CutFault> {
    let mut cutter = Cutter::new(alloc, target.max(1));
    let mut left = bytes;
    for size in sizes.iter().cycle().take(1_000) {
        let (piece, later) = left.split_at((*size).min(left.len()));
        if !takes(&mut cutter, piece) && !takes(&mut cutter, piece) {
            return Err(CutFault::OutOfMemory);
        }
        left = later;
        if left.is_empty() {
            break;
        }
    }
    cutter.finish()
}

/// The cut of a day file.
fn cut_in(alloc: Global, file: &DayFile, way: Way) -> Result<Cut, CutFault> {
    match way {
        Way::By(target) => cut(alloc, file, target.max(1)),
        Way::Fed(target, sizes) => fed(alloc, file.bytes(), target, sizes),
        Way::At(ends) => cut_at(alloc, file, ends),
    }
}

/// Whether the morsels start there.
fn has_starts(cut: &Cut, starts: &[u64]) -> bool {
    let mut left = cut.morsels().iter();
    for start in starts {
        match left.next() {
            Some(morsel) if morsel.start() == *start => {}
            _ => return false,
        }
    }
    left.next().is_none()
}

/// How many of these ways, up to the first that doesn't, cut the file into morsels that start there.
fn right_cuts(alloc: Global, file: &DayFile, ways: &[(Way, &[u64])]) -> Result<usize, CutFault> {
    let mut right = 0usize;
    for (way, starts) in ways {
        if !has_starts(&cut_in(alloc, file, *way)?, starts) {
            break;
        }
        right = right.saturating_add(1);
    }
    Ok(right)
}

/// The result of a test that passes if all ways cut `NAMED` so.
fn cut_right(alloc: Global, ways: &[(Way, &[u64])]) -> Result<(), Fail> {
    let file = file_of(named(alloc)?)?;
    let right = right_cuts(alloc, &file, ways)?;
    if right == ways.len() {
        Ok(())
    } else {
        Err(Fail::from(right))
    }
}

static CUTS: [(Way, &[u64]); 9] = [
    (Way::By(1), &[0, 41, 79]),
    (Way::By(42), &[0, 79]),
    (Way::By(200), &[0]),
    (Way::At(&[41, 79]), &[0, 41, 79]),
    (Way::At(&[79]), &[0, 79]),
    (Way::At(&[]), &[0]),
    (Way::Fed(1, &[1]), &[0, 41, 79]),
    (Way::Fed(42, &[1]), &[0, 79]),
    (Way::Fed(200, &[0, 1, 2, 3, 7, 64]), &[0]),
];

/// Run also with each allocation of the process refused in turn.
#[test]
fn cuts_or_want_of_memory(rt: HostRuntime) -> Result<(), Fail> {
    one_cut();
    cut_right(rt.alloc(), &CUTS)
}

static FED: [(Way, &[u64]); 4] = [
    (Way::Fed(1, &[112]), &[0, 41, 79]),
    (Way::Fed(1, &[0, 1, 2, 3, 7, 64]), &[0, 41, 79]),
    (Way::Fed(42, &[112]), &[0, 79]),
    (Way::Fed(42, &[0, 1, 2, 3, 7, 64]), &[0, 79]),
];

/// Run also with each allocation of the process refused in turn.
#[test]
fn pieces_that_are_fed_again(rt: HostRuntime) -> Result<(), Fail> {
    cut_right(rt.alloc(), &FED)
}

/// The first bytes of `NAMED` that are cut in this way, and the fault.
type Faulty = (usize, Way, CutFault);

static FAULTS: [Faulty; 6] = [
    (111, Way::By(1), CutFault::Truncated { place: 79 }),
    (111, Way::Fed(1, &[112]), CutFault::Truncated { place: 79 }),
    (111, Way::At(&[41]), CutFault::Truncated { place: 79 }),
    (112, Way::At(&[40]), CutFault::NotABoundary { end: 40 }),
    (112, Way::At(&[79, 41]), CutFault::NotABoundary { end: 41 }),
    (112, Way::At(&[112]), CutFault::NotABoundary { end: 112 }),
];

/// Whether they have that fault. Want of memory is an error.
fn is_faulty(alloc: Global, (length, way, want): Faulty) -> Result<bool, Fail> {
    let mut bytes = named(alloc)?;
    bytes.truncate(length);
    match cut_in(alloc, &file_of(bytes)?, way) {
        Err(CutFault::OutOfMemory) => Err(Fail::from(AllocError)),
        Err(fault) => Ok(fault == want),
        Ok(_) => Ok(false),
    }
}

/// The result of a test that passes if all of the table are; if not, it names a length and a fault.
fn all_faulty(alloc: Global) -> Result<(), Fail> {
    for faulty in &FAULTS {
        if !is_faulty(alloc, *faulty)? {
            return Err(Fail::from((faulty.0, faulty.2)));
        }
    }
    Ok(())
}

/// Run also with each allocation of the process refused in turn.
#[test]
fn faults_or_want_of_memory(rt: HostRuntime) -> Result<(), Fail> {
    all_faulty(rt.alloc())
}

/// How many zeros a day file has (messages of no bytes, and perhaps one byte more), a target, and how many morsels
/// there are.
type Zeros = (usize, u64, Result<u32, CutFault>);

static ZEROS: [Zeros; 6] = [
    (8_194, 1, Ok(4_097)),
    (8_194, 3, Ok(2_049)),
    (8_195, 1, Err(CutFault::Truncated { place: 8_194 })),
    (131_074, 1, Err(CutFault::TooManyMorsels)),
    (131_074, 3, Ok(32_769)),
    (131_075, 1, Err(CutFault::Truncated { place: 131_074 })),
];

/// How many morsels a file is cut into.
fn count_in(alloc: Global, file: &DayFile, way: Way) -> Result<u32, CutFault> {
    Ok(cut_in(alloc, file, way)?.count())
}

/// Whether so many are made of these zeros by `cut`, and by a `Cutter`.
fn are_counted(alloc: Global, (length, target, want): Zeros) -> Result<bool, Fail> {
    let file = file_of(vec![in alloc; 0u8; length]?)?;
    Ok(
        count_in(alloc, &file, Way::By(target)) == want
            && count_in(alloc, &file, Way::Fed(target, &[65_536])) == want,
    )
}

/// The result of a test that passes if all of the table are; if not, it names a number of zeros and a target.
fn all_counted(alloc: Global) -> Result<(), Fail> {
    for zeros in &ZEROS {
        if !are_counted(alloc, *zeros)? {
            return Err(Fail::from((zeros.0, zeros.1)));
        }
    }
    Ok(())
}

#[test]
fn a_cut_has_no_more_than_the_most_morsels(rt: HostRuntime) -> Result<(), Fail> {
    all_counted(rt.alloc())
}

/// Whether a file has frames of these lengths at these places, and no other bytes.
fn has_frames(file: &DayFile, want: &[(u64, usize)]) -> bool {
    let mut left = frames(file);
    for (place, length) in want {
        match left.next() {
            Some(frame) if frame.place == *place && frame.body.len() == *length => {}
            _ => return false,
        }
    }
    left.next().is_none() && left.finish().is_ok()
}

/// The result of a test that passes if `NAMED` has its frames, and no fault.
fn named_has_frames(alloc: Global) -> Result<(), Fail> {
    let file = file_of(named(alloc)?)?;
    pass_if(has_frames(&file, &[(0, 39), (41, 36), (79, 31)]) && check(&file).is_ok())
}

#[test]
fn a_frame_stands_where_the_one_before_it_ends(rt: HostRuntime) -> Result<(), Fail> {
    one_reading();
    named_has_frames(rt.alloc())
}
