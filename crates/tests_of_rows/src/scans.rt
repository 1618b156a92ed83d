//! Scans of the morsels of a day, whose pieces are gathered in any order.
use crate::days::{broken_earlier, named};
use crate::rows::pass_if;
use cutting::cut_at;
use day_rows::Row;
use gathering::{Filed, Gathering, Inputs, Piece, Work};
use morsel_rows::{MorselRows, Partition};
use row_types::{DirectoryRow, Execution, OrderRow};
use scanning::{OutOfMemory, ScanTotal, ScanWork, batch_inputs, scan_inputs};
use std::alloc::Global;
use std::sync::Arc;
use std::test::Fail;
use tests_support::{Day, Form, MSFT, WITH_A_SHORT_ADD, file_of};

/// What is scanned of a day that is cut.
type Scans = Arc<Inputs<ScanWork>, Global>;

/// The scans of these bytes with these ends, in 64 partitions.
fn scans_of(alloc: Global, bytes: Vec<u8>, ends: &[u64]) -> Result<Scans, Fail> {
    let cut = cut_at(alloc, &file_of(bytes)?, ends)?;
    Ok(Arc::new(alloc, scan_inputs(alloc, &cut, None, 64)?)?)
}

/// The scans of `BROKEN_EARLIER`, each of whose frames is a morsel.
fn broken_scans(alloc: Global) -> Result<Scans, Fail> {
    scans_of(alloc, broken_earlier(alloc)?, &[41, 79, 100])
}

/// How a scan is filed, or the number of the piece that is handed back.
type Answered = Result<Filed, u32>;

const NEW: Answered = Ok(Filed::New);

/// How the scan of this number is filed. There is none of a task that there is not.
fn filed(
    alloc: Global,
    gathering: &mut Gathering<ScanWork>,
    scans: &Scans,
    task: u32,
) -> Result<Answered, OutOfMemory> {
    if task >= scans.count() {
        return Ok(Err(u32::MAX));
    }
    let piece = Piece::make(alloc, task, Arc::try_clone(scans.input(task))?)?;
    match gathering.file(piece) {
        Ok(filed) => Ok(Ok(filed)),
        Err(stranger) => Ok(Err(stranger.piece.number())),
    }
}

/// Whether the scans of these numbers are filed so, one after the other.
fn are_filed(
    alloc: Global,
    gathering: &mut Gathering<ScanWork>,
    scans: &Scans,
    tasks: &[(u32, Answered)],
) -> Result<bool, OutOfMemory> {
    for (task, want) in tasks {
        if filed(alloc, gathering, scans, *task)? != *want {
            return Ok(false);
        }
    }
    Ok(true)
}

/// The total of these scans, which are filed in the order of these tasks.
fn total_of(alloc: Global, scans: &Scans, tasks: &[(u32, Answered)]) -> Result<ScanTotal, Fail> {
    let mut gathering = Gathering::new(alloc, Arc::try_clone(scans)?)?;
    if !are_filed(alloc, &mut gathering, scans, tasks)? {
        return Err(Fail::from("a piece is filed in another way"));
    }
    match gathering.total() {
        Ok(total) => Ok(total),
        Err(_) => Err(Fail::from("there is no total")),
    }
}

/// A row, with the number of its partition if it stands in one.
type Placed = (Option<u32>, Row);

type Found = Vec<Placed>;

/// Adds the rows of one partition.
fn find_in(found: &mut Found, number: u32, partition: &Partition) -> Result<(), OutOfMemory> {
    for row in partition.orders().iter() {
        found.push((Some(number), Row::Order(row)))?;
    }
    for row in partition.executions() {
        found.push((Some(number), Row::Execution(*row)))?;
    }
    for row in partition.own_priced() {
        found.push((Some(number), Row::Sale(*row)))?;
    }
    Ok(())
}

/// Adds the rows of one morsel.
fn find(found: &mut Found, morsel: &MorselRows) -> Result<(), OutOfMemory> {
    for row in morsel.directory() {
        found.push((None, Row::Directory(*row)))?;
    }
    for trade_no in morsel.breaks() {
        found.push((None, Row::Break(*trade_no)))?;
    }
    for number in 0..64 {
        if let Some(partition) = morsel.partition(number) {
            find_in(found, number, partition)?;
        }
    }
    Ok(())
}

/// All rows of a total, morsel after morsel.
fn rows_of(alloc: Global, total: ScanTotal) -> Result<Found, OutOfMemory> {
    let mut found = Vec::new(alloc);
    for morsel in total.into_rows() {
        find(&mut found, &morsel)?;
    }
    Ok(found)
}

/// Whether a total has these rows.
fn is_found(alloc: Global, total: ScanTotal, rows: &[Placed]) -> Result<bool, OutOfMemory> {
    Ok(rows_of(alloc, total)?.as_slice() == rows)
}

/// The rows of `BROKEN_EARLIER`.
const DIRECTORY: Placed = (
    None,
    Row::Directory(DirectoryRow {
        place: 0,
        locate: 7,
        stock: MSFT,
    }),
);

const ORDER: Placed = (
    Some(1),
    Row::Order(OrderRow {
        place: 41,
        order_no: 1,
        price: 4_105_000,
    }),
);

const BREAK: Placed = (None, Row::Break(9));

const EXECUTION: Placed = (
    Some(1),
    Row::Execution(Execution {
        place: 100,
        time: 34_201_000_000_005,
        locate: 7,
        order_no: 1,
        shares: 40,
        trade_no: 9,
    }),
);

static EACH: [Placed; 4] = [DIRECTORY, ORDER, BREAK, EXECUTION];

/// Those of neighbouring morsels together: of one list of rows, breaks come first.
static IN_PAIRS: [Placed; 4] = [DIRECTORY, BREAK, ORDER, EXECUTION];

static ANY_ORDER: [(u32, Answered); 4] = [(3, NEW), (1, NEW), (0, NEW), (2, NEW)];

/// The result of a test that passes if a total has these rows, and no wrong length.
fn has_rows(alloc: Global, total: ScanTotal, rows: &[Placed]) -> Result<(), Fail> {
    let is_right = total.wrong().is_none();
    pass_if(is_right && is_found(alloc, total, rows)?)
}

/// The same of the scans of `BROKEN_EARLIER`, filed in another order.
fn has_rows_of_each(alloc: Global) -> Result<(), Fail> {
    has_rows(
        alloc,
        total_of(alloc, &broken_scans(alloc)?, &ANY_ORDER)?,
        &EACH,
    )
}

#[test]
fn a_total_has_the_rows_of_each_morsel_whatever_their_order(rt: HostRuntime) -> Result<(), Fail> {
    has_rows_of_each(rt.alloc())
}

/// A part of a day that is cut by itself: its frames, where it begins, and where its morsels but the first one begin
/// in it.
type Part = (&'static [Form], u64, &'static [u64]);

/// `BROKEN_EARLIER` in parts, of which one is empty.
static BROKEN_PARTS: [Part; 4] = [
    (&[Form::R(7, MSFT)], 0, &[]),
    (&[Form::A(1, 4_105_000), Form::B(9)], 41, &[38]),
    (&[], 100, &[]),
    (&[Form::E(1, 40, 9)], 100, &[]),
];

/// The inputs of the scans of a part, of which the first morsel has this number, up to so many neighbouring morsels
/// together.
fn inputs_of_part(
    alloc: Global,
    (forms, start, ends): Part,
    together: usize,
    first: u32,
) -> Result<Inputs<ScanWork>, Fail> {
    let cut = cut_at(alloc, &file_of(Day::of(alloc, forms)?.bytes)?, ends)?;
    if first > 9 || start > 999 || cut.count() > 9 || cut.length() > 999 {
        return Err(Fail::from("a part of a test's day is too long"));
    }
    Ok(batch_inputs(alloc, &cut, together.max(1), first, start, None, 64)?)
}

/// The total of some scans.
fn total_of_inputs(alloc: Global, scans: &Inputs<ScanWork>) -> Result<ScanTotal, OutOfMemory> {
    let mut total = ScanTotal::empty(alloc);
    for number in 0..scans.count() {
        total.add(&ScanWork::run(alloc, scans.input(number))?)?;
    }
    Ok(total)
}

/// The total of all parts, up to so many neighbouring morsels together.
fn total_of_parts(alloc: Global, together: usize) -> Result<ScanTotal, Fail> {
    let mut total = ScanTotal::empty(alloc);
    let mut first: u32 = 0;
    for part in &BROKEN_PARTS {
        let scans = inputs_of_part(alloc, *part, together, first)?;
        total.append(total_of_inputs(alloc, &scans)?)?;
        first = first.saturating_add(scans.count());
    }
    Ok(total)
}

/// The result of a test that passes if the parts have these rows, and no wrong length.
fn parts_have(alloc: Global, together: usize, rows: &[Placed]) -> Result<(), Fail> {
    has_rows(alloc, total_of_parts(alloc, together)?, rows)
}

/// Run also with each allocation of the process refused in turn.
#[test]
fn parts_of_a_day_or_want_of_memory(rt: HostRuntime) -> Result<(), Fail> {
    parts_have(rt.alloc(), 1, &EACH)?;
    parts_have(rt.alloc(), 2, &IN_PAIRS)
}

/// The scans of `WITH_A_SHORT_ADD` in three morsels.
fn short_scans(alloc: Global) -> Result<Scans, Fail> {
    scans_of(alloc, Day::of(alloc, &WITH_A_SHORT_ADD)?.bytes, &[41, 81])
}

/// The result of a test that passes if their total has the place of the wrong length.
fn has_wrong_place(alloc: Global) -> Result<(), Fail> {
    let total = total_of(alloc, &short_scans(alloc)?, &[(2, NEW), (0, NEW), (1, NEW)])?;
    pass_if(matches!(total.wrong(), Some(wrong) if wrong.place == 84))
}

#[test]
fn a_total_has_the_place_of_a_wrong_length(rt: HostRuntime) -> Result<(), Fail> {
    has_wrong_place(rt.alloc())
}

/// What each of two gatherings lacks first when they are not merged.
fn missing_when_refused(
    own: &mut Gathering<ScanWork>,
    other: Gathering<ScanWork>,
) -> Option<(Option<u32>, Option<u32>)> {
    match own.merge(other) {
        Ok(()) => None,
        Err(refused) => Some((own.first_missing(), refused.other.first_missing())),
    }
}

/// The scans of `NAMED`, of which each frame is a morsel.
fn named_scans(alloc: Global) -> Result<Scans, Fail> {
    scans_of(alloc, named(alloc)?, &[41, 79])
}

/// Morsels of `BROKEN_EARLIER`, and how they are filed among those of `NAMED`: the first two are the same, the third
/// is another, and there is no fourth.
static STRANGERS: [(u32, Answered); 4] = [(2, Err(2)), (0, NEW), (3, Err(3)), (1, NEW)];

/// Whether they are filed so, and a gathering over their own cut isn't merged with the one over the other cut.
fn are_strangers(alloc: Global, scans: Scans, named: Scans) -> Result<bool, OutOfMemory> {
    let mut other = Gathering::new(alloc, named)?;
    let are_filed = are_filed(alloc, &mut other, &scans, &STRANGERS)?;
    let mut own = Gathering::new(alloc, scans)?;
    Ok(are_filed && missing_when_refused(&mut own, other) == Some((Some(0), Some(2))))
}

/// The result of a test that passes if those of the two days are.
fn knows_strangers(alloc: Global) -> Result<(), Fail> {
    pass_if(are_strangers(alloc, broken_scans(alloc)?, named_scans(alloc)?)?)
}

/// Nor are gatherings over two cuts merged.
#[test]
fn a_morsel_of_another_cut_is_a_stranger_unless_it_is_the_same(
    rt: HostRuntime,
) -> Result<(), Fail> {
    knows_strangers(rt.alloc())
}
