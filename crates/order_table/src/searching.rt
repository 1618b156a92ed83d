//! Rows of rising references, and a search that begins where a reference is expected.
ghost use Rattle.std.specs.Prelude.{◌≡◌, ℕ, ◌==◌, ◌+◌, ◌<◌, ◌≤◌, IsTrue, MatchOption, None, Some, false};
ghost use Rattle.std.specs.Prelude.{length, nat_lt, true};
ghost use Rattle.std.specs.List.{find};
ghost use Rattle.std.specs.List.Sorted.{IsNonDecreasingBy, IsPartitionPoint};

/// How many rows to either side of the one where a reference is expected are looked at.
const REACH: usize = 8;

/// A row that has a reference, or that stands for one that has.
pub trait Referenced {
    ghost reference_of: { Self → ℕ };

    /// The reference.
    fn reference(&self) -> u64
        ensures { result ≡ reference_of self.now };
}

/// A row near the one of a reference, and the reference that it has, as far as they are known. Only the speed of a
/// search hangs on them.
#[derive(Clone, Copy)]
pub struct Near {
    pub row: usize,
    pub reference: u64,
}

impl Near {
    #[inline(always)]
    fn at<R: Referenced>(rows: &[R], row: usize) -> Self
        requires { row < length rows.now }
    {
        Near {
            row,
            reference: rows[row].reference(),
        }
    }

    /// The same, after a look at the row and at those 8 to either side of it: of the three the one that a search for
    /// the reference best begins at. No branch hangs on what the rows have, so that a processor has several looks
    /// under way.
    #[inline(always)]
    pub fn look<R: Referenced>(self, rows: &[R], reference: u64) -> Self {
        if rows.is_empty() {
            return self;
        }
        let last = rows.len() - 1;
        let row = self.row.min(last);
        let before = Near::at(rows, row.saturating_sub(REACH));
        let here = Near::at(rows, row);
        let behind = Near::at(rows, row.saturating_add(REACH).min(last));
        let nearest = if reference < before.reference {
            before
        } else {
            here
        };
        if behind.reference < reference {
            behind
        } else {
            nearest
        }
    }
}

/// How many rows there are to a reference: of rows whose references rise evenly it tells where one is. Only the speed
/// of a search hangs on it.
#[derive(Clone, Copy)]
pub struct Spread {
    least: u64,
    /// With 64 bits behind the point.
    rows_each: u64,
}

impl Spread {
    /// Of `rows` between these two references.
    pub fn of(rows: usize, least: u64, greatest: u64) -> Self {
        let span = greatest.saturating_sub(least).max(1);
        let rows_each = (u128::from(rows as u64) << 64) / u128::from(span);
        Spread {
            least,
            rows_each: u64::try_from(rows_each).unwrap_or(u64::MAX),
        }
    }

    /// Of about how many rows the references are between these two.
    #[inline(always)]
    fn rows_between(self, low: u64, high: u64) -> usize {
        let span = high.saturating_sub(low);
        ((u128::from(span) * u128::from(self.rows_each)) >> 64) as usize
    }

    /// Where a reference is expected. No row is read.
    #[inline(always)]
    pub fn expect(self, reference: u64) -> Near {
        Near {
            row: self.rows_between(self.least, reference),
            reference,
        }
    }

    /// Which row is expected to have a reference, by one that is near.
    #[inline(always)]
    fn row_from(self, near: Near, reference: u64) -> usize {
        let behind = self.rows_between(near.reference, reference);
        let before = self.rows_between(reference, near.reference);
        near.row.saturating_add(behind).saturating_sub(before)
    }

    /// How many rows are expected to have a smaller reference: reckoned from all rows, then from the row that is there,
    /// and then by a look at those beside it.
    #[inline(always)]
    pub fn expect_point<R: Referenced>(self, rows: &[R], reference: u64) -> usize {
        if rows.len() < 3 {
            return 0;
        }
        let near = Near::at(rows, self.expect(reference).row.min(rows.len() - 1));
        let from = self.row_from(near, reference).saturating_sub(1);
        let point = from.min(rows.len() - 3);
        let point = step(rows, point, 2, reference);
        step(rows, point, 1, reference)
    }
}

/// This many rows and `by` more, if all of them have a smaller reference, and else this many.
#[inline(always)]
fn step<R: Referenced>(rows: &[R], point: usize, by: usize, reference: u64) -> usize
    requires some { 0 < by }
    requires within { point + by ≤ length rows.now }
    ensures { result ≤ point + by }
{
    point + by * usize::from(rows[point + by - 1].reference() < reference)
}

/// How many rows have a smaller reference, if that is near the guess, and else another number.
#[inline(always)]
fn near_point<R: Referenced>(rows: &[R], guess: usize, reference: u64) -> usize {
    if rows.len() < 2 * REACH {
        return 0;
    }
    let from = guess.saturating_sub(REACH).min(rows.len() - 2 * REACH);
    let point = step(rows, from, 8, reference);
    let point = step(rows, point, 4, reference);
    let point = step(rows, point, 2, reference);
    step(rows, point, 1, reference)
}

/// The first row of this reference, which is searched from one that is near.
#[inline(always)]
pub fn first_of<R: Referenced>(rows: &[R], spread: Spread, near: Near, reference: u64) -> Option<&R>
    requires { IsNonDecreasingBy R.reference_of rows.now }
    ensures { MatchOption result
        (find (λ row. R.reference_of row == reference) rows.now ≡ None)
        (λ row. find (λ row. R.reference_of row == reference) rows.now ≡ Some row.now) }
{
    let guess = spread.row_from(near, reference);
    let at = point_of(rows, near_point(rows, guess, reference), reference);
    match rows.get(at) {
        Some(row) if row.reference() == reference => Some(row),
        _ => None,
    }
}

/// How many rows have a smaller reference. All are searched, unless it is as many as are expected.
#[inline(always)]
pub fn point_of<R: Referenced>(rows: &[R], expected: usize, reference: u64) -> usize
    requires { IsNonDecreasingBy R.reference_of rows.now }
    ensures { IsPartitionPoint (λ row. nat_lt (R.reference_of row) reference ≡ true)
        (λ row. nat_lt (R.reference_of row) reference ≡ false) rows.now result }
{
    if is_point(rows, expected, reference) {
        expected
    } else {
        rows.partition_point(|row| row.reference() < reference)
    }
}

/// Whether the row before this one has a smaller reference, and this one hasn't.
#[inline(always)]
fn is_point<R: Referenced>(rows: &[R], at: usize, reference: u64) -> bool
    requires { IsNonDecreasingBy R.reference_of rows.now }
    ensures { IsTrue result → IsPartitionPoint (λ row. nat_lt (R.reference_of row) reference ≡ true)
        (λ row. nat_lt (R.reference_of row) reference ≡ false) rows.now at }
{
    if at == 0 || rows.len() <= at {
        return false;
    }
    rows[at - 1].reference() < reference && reference <= rows[at].reference()
}
