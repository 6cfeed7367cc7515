// The rows, from the heights of neighbouring indices: a pass for each row finds the least height that is still due. The
// heights that occur are few, so the passes are nothing beside the polynomials.
ghost use Rattle.std.specs.Prelude.{◌≡◌, ◌+◌, ◌*◌, ◌≤◌, length, take, drop, ◌++◌, IfSome};
ghost use Rattle.counting.specs.Census.{indices, rows_of};
ghost use Rattle.counting.specs.Passes.{Heights, LaidIs, row_list, first_of, row_with, joined_to, next_row};

use std::cmp::Ordering;

// A row: a height, the smallest index that has it, and how many have it.
#[derive(Clone, Copy)]
struct Row {
    height: u64,
    smallest: u64,
    count: u64,
}

impl Row {
    // The row of a height that only index n has.
    fn first(height: u64, n: u64) -> Row
        ensures { result ≡ first_of height n }
    {
        Row {
            height,
            smallest: n,
            count: 1,
        }
    }

    // The row of the least height, with one index more, which is smaller than all before it.
    #[tactic(auto, unfolding(crate::specs::Passes::row_with))]
    fn with(self, height: u64, n: u64) -> Row
        requires { self.count ≤ 4095 }
        ensures { result ≡ row_with height n self }
    {
        match height.cmp(&self.height) {
            Ordering::Less => Row::first(height, n),
            Ordering::Equal => Row {
                height,
                smallest: n,
                count: self.count + 1,
            },
            Ordering::Greater => self,
        }
    }
}

// A row that is being found among heights from `due` on, if one is due yet, and one index more, smaller than all before
// it.
#[tactic(auto, unfolding(crate::specs::Passes::joined_to))]
fn joined(row: Option<Row>, due: u64, height: u64, n: u64) -> Option<Row>
    requires { IfSome row (λ r. r.count ≤ 4095) }
    ensures { result ≡ joined_to due height n row }
{
    if height < due {
        return row;
    }
    match row {
        None => Some(Row::first(height, n)),
        Some(row) => Some(row.with(height, n)),
    }
}

// The row of the least height from `due` on, if one is due.
fn next_row(a: usize, heights: &[i64], due: u64) -> Option<Row>
    requires { Heights a heights.now }
    ensures { result ≡ next_row due (indices a (length heights.now)) }
{
    let mut row = None;
    for i in (0..heights.len()).rev() {
        row = joined(row, due, heights[i] as u64, (a + i) as u64);
    }
    row
}

// How many rows there are.
fn count_rows(a: usize, heights: &[i64]) -> usize
    requires { Heights a heights.now }
    ensures { 3 * result ≡ length (rows_of (indices a (length heights.now))) }
{
    let mut count = 0;
    let mut due = 0;
    while let Some(row) = next_row(a, heights, due) {
        count += 1;
        due = row.height + 1;
    }
    count
}

// A row, at a place.
fn put_row(rows: &mut [u64], at: usize, row: Row)
    requires { at + 3 ≤ length rows.old }
    ensures { rows.new ≡ take at rows.old ++ row_list row ++ drop (at + 3) rows.old }
{
    rows[at..at + 3].copy_from_slice(&[row.height, row.smallest, row.count]);
}

// All of them, written.
fn write_rows(a: usize, heights: &[i64], rows: &mut [u64])
    requires heights { Heights a heights.now }
    requires heights_in_bounds { length (rows_of (indices a (length heights.now))) ≤ length rows.old }
    ensures { rows.new
        ≡ rows_of (indices a (length heights.now))
        ++ drop (length (rows_of (indices a (length heights.now)))) rows.old }
{
    let mut at = 0;
    let mut due = 0;
    while let Some(row) = next_row(a, heights, due) {
        put_row(rows, at, row);
        at += 3;
        due = row.height + 1;
    }
}

// The rows, written where they fit: how many there are, or none.
pub(crate) fn lay_rows(a: usize, heights: &[i64], rows: &mut [u64]) -> Option<usize>
    requires { Heights a heights.now }
    ensures { LaidIs (rows_of (indices a (length heights.now))) rows.old rows.new result }
{
    let count = count_rows(a, heights);
    if rows.len() / 3 < count {
        return None;
    }
    write_rows(a, heights, rows);
    Some(count)
}
