// Tables of points as rows of numbers, for callers that have no Point: for each of the 64 points its picture, its segment and then its
// record's numbers. They are read and written where they lie; none is copied.
#![tactic(auto)]

ghost use Rattle.std.specs.Prelude.{◌≡◌, true, ◌+◌, ◌*◌, ◌<◌, ◌≤◌, length};
ghost use Rattle.std.proofs.Math.Seq.{paste};
ghost use Rattle.plan.specs.Limit.{most_points};
ghost use Rattle.track.specs.Inner.{scan_of, chosen_of, filled_by};
ghost use Rattle.tables.specs.Table.{flat_point, point_length, table_length, zero_row, point_in, flat_table, table_in, found_in, filled_as};

use plan::{Entry, Layout, Scanned, Source};
use refusals::Refusal;
use track::Point;

// How many numbers a point has, and a table. (That a table has so many stays a clause: C lends slices, whose length `pimlasut` judges once, and an
// array of that length would ask a conversion of every caller.)
pub const POINT: usize = 2 + flat::NUMBERS;

pub const NUMBERS: usize = POINT * plan::POINTS;

// The point that the entry i names, or one whose record is not valid where its numbers name none.
pub fn get_point(table: &[i32], i: usize) -> Point
    requires { (length table.now ≡ table_length) × (i < most_points) }
    ensures { result ≡ point_in table.now i }
{
    let at = POINT * i;
    let number = table[at + 1];
    let segment = flat::unsigned(number);
    Point {
        picture: table[at],
        segment,
        record: flat::get_beside(table, at + 2, number == i32::from(segment)),
    }
}

// Writes the numbers of a point into a row, from a place of it on.
pub fn put_point(row: &mut [i32], at: usize, point: Point)
    requires { at + point_length ≤ length row.old }
    ensures { row.new ≡ paste row.old at (flat_point point) point_length }
{
    row[at] = point.picture;
    row[at + 1] = i32::from(point.segment);
    flat::put_record(row, at + 2, point.record);
}

// Every entry becomes picture 0 and segment 0 with the empty record, whose numbers are zeros.
pub fn clear(table: &mut [i32])
    requires { length table.old ≡ table_length }
    ensures { table.new ≡ zero_row table_length }
{
    table.fill(0);
}

// The one pass over a table: whether it is a track, and its numbers. (`track` scans and fills alike, over slices of points. No slice of
// points is here, and of a closure that gives the point i a contract would say by a ghost list which points it gives: no call that picks
// one beside a closure is proved yet.)
pub fn scan(table: &[i32], count: usize) -> Scanned
    requires { length table.now ≡ table_length }
    ensures { result ≡ scan_of (table_in table.now) count }
{
    let mut seen = plan::begin(plan::POINTS, count);
    for i in 0..plan::extent(plan::POINTS, count) {
        seen = track::note_point(seen, i, get_point(table, i));
    }
    seen
}

// The point that a search has found, or a cleared one where it has found none.
pub fn found_point(table: &[i32], found: Option<Entry>) -> Point
    requires { length table.now ≡ table_length }
    ensures { result ≡ found_in table.now found }
{
    match found {
        Some(entry) => get_point(table, usize::from(entry)),
        None => track::cleared_point(),
    }
}

// The point that a source of a layout names.
fn chosen(first: &[i32], second: &[i32], source: Source) -> Point
    requires { (length first.now ≡ table_length) × (length second.now ≡ table_length) }
    ensures { result ≡ chosen_of (table_in first.now) (table_in second.now) source }
{
    match source {
        Source::First(entry) => get_point(first, usize::from(entry)),
        Source::Second(entry) => get_point(second, usize::from(entry)),
        Source::Neither => track::cleared_point(),
    }
}

// Writes each entry of the result, as the layout has it.
fn fill_entries(res: &mut [i32], first: &[i32], second: &[i32], layout: &Layout)
    requires { (length res.old ≡ table_length) × (length first.now ≡ table_length) × (length second.now ≡ table_length) }
    ensures { res.new ≡ flat_table (filled_by (table_in first.now) (table_in second.now) layout.now) }
{
    for (k, source) in layout.sources().iter().enumerate() {
        put_point(res, POINT * k, chosen(first, second, *source));
    }
}

// The same of a plan; where that is a refusal, no entry is written.
pub fn fill(res: &mut [i32], first: &[i32], second: &[i32], layout: &Result<Layout, Refusal>)
    requires { (length res.old ≡ table_length) × (length first.now ≡ table_length) × (length second.now ≡ table_length) }
    ensures { res.new ≡ filled_as res.old first.now second.now layout.now }
{
    if let Ok(done) = layout {
        fill_entries(res, first, second, done);
    }
}
