// Tracks: a lent table of 64 points with a count. Placing a record, looking a picture up, joining two tracks.
// No table goes by value: a scan reads the lent table point by point into a small value, `plan` decides on the numbers,
// and a fill writes the result point by point.
#![tactic(auto)]

ghost use Rattle.std.specs.Prelude.{◌≡◌, ◌<◌, length};
ghost use Rattle.plan.specs.Limit.{most_points};
ghost use Rattle.track.specs.Track.{point_with, cleared, may_stand, none_in_force, lookup_answer, join_answer, join_table, place_answer, place_table};
ghost use Rattle.track.specs.Inner.{noted_point, scan_of, filled_by, joined, held_of, placed};

use plan::{Layout, Scanned, Source};
use record::Record;
use refusals::Refusal;

// A picture number, in output order, the number of the segment that the point came from, and the record in force from there on.
#[derive(Clone, Copy, Debug, PartialEq, Eq)]
pub struct Point {
    pub picture: i32,
    pub segment: u16,
    pub record: Record,
}

// An entry past a track's count: picture 0 and segment 0 with the empty record.
#[tactic(auto, unfolding(crate::specs::Track::cleared))]
pub fn cleared_point() -> Point
    ensures { result ≡ cleared }
{
    Point {
        picture: 0,
        segment: 0,
        record: Record::empty(),
    }
}

// A point's record is valid, with the refresh flag 1.
fn may_stand(shown: Record) -> bool
    ensures { result ≡ may_stand shown }
{
    shown.refresh & valid::is_valid(shown)
}

// A scan's turn. A point's inside is seen here and nowhere else in a scan.
pub fn note_point(seen: Scanned, index: usize, point: Point) -> Scanned
    requires { index < most_points }
    ensures { result ≡ noted_point seen index point }
{
    let picture = point.picture;
    let shown = point.record;
    let usable = may_stand(shown);
    plan::note(seen, index, picture, usable)
}

// The one pass over a lent table: whether it is a track, and its numbers.
fn scan(table: &[Point], count: usize) -> Scanned
    ensures { result ≡ scan_of table.now count }
{
    let entries = table.len();
    let extent = plan::extent(entries, count);
    let mut seen = plan::begin(entries, count);
    for (i, point) in table[..extent].iter().enumerate() {
        seen = note_point(seen, i, *point);
    }
    seen
}

// Writes each entry of the result, as the layout has it. (Each arm stores by itself: a match whose value is stored copies each point twice.)
fn fill(res: &mut [Point], first: &[Point], second: &[Point], layout: &Layout)
    requires { (length res.old ≡ most_points) × (length first.now ≡ most_points) × (length second.now ≡ most_points) }
    ensures { res.new ≡ filled_by first.now second.now layout.now }
{
    for (k, source) in layout.sources().iter().enumerate() {
        match *source {
            Source::First(entry) => res[k] = first[usize::from(entry)],
            Source::Second(entry) => res[k] = second[usize::from(entry)],
            Source::Neither => res[k] = cleared_point(),
        }
    }
}

// The answer of a join: 0 and the new count, or a refusal and 0. (01: lookup, placing and join answer with a number, and 0 means done.) On
// the way to it the answer is a Result. README names it and the answer of a placing, so they are two types.
#[derive(Clone, Copy, Debug, PartialEq, Eq)]
pub struct Joined {
    pub result: u8,
    pub count: usize,
}

impl From<Result<usize, Refusal>> for Joined {
    ghost from_gives = { λ outcome answer. answer ≡ joined outcome };

    fn from(outcome: Result<usize, Refusal>) -> Joined {
        match outcome {
            Ok(count) => Joined { result: 0, count },
            Err(refusal) => Joined {
                result: refusal.number(),
                count: 0,
            },
        }
    }
}

// A join on the way to its answer: the new count, or which refusal.
fn join_into(
    first: &[Point],
    first_count: usize,
    second: &[Point],
    second_count: usize,
    res: &mut [Point],
) -> Result<usize, Refusal>
    ensures outcome { joined result ≡ join_answer first.now first_count second.now second_count (length res.old) }
    ensures table { res.new ≡ join_table res.old first.now first_count second.now second_count }
{
    let s = scan(first, first_count);
    let t = scan(second, second_count);
    let layout = plan::decide(s, first_count, t, second_count, res.len())?;
    fill(res, first, second, &layout);
    Ok(layout.count)
}

// Every number of either track in rising order, with the second's point where both hold the number.
// Refusals: 16 for the first, 16 for the second, 13 for the result's table, 15 above 64 different numbers.
pub fn join(
    first: &[Point],
    first_count: usize,
    second: &[Point],
    second_count: usize,
    res: &mut [Point],
) -> Joined
    ensures answer { result ≡ join_answer first.now first_count second.now second_count (length res.old) }
    ensures table { res.new ≡ join_table res.old first.now first_count second.now second_count }
{
    Joined::from(join_into(first, first_count, second, second_count, res))
}

// The answer of a lookup, with a number as 01 has it, and a flag beside the point, which README names: the point in force, with its number, at which its record has started, and its segment;
// or nothing, and then a cleared point.
#[derive(Clone, Copy, Debug, PartialEq, Eq)]
pub struct InForce {
    pub result: u8,
    pub found: bool,
    pub point: Point,
}

fn held(point: Point) -> InForce
    ensures { result ≡ held_of point }
{
    InForce {
        result: 0,
        found: true,
        point,
    }
}

// Nothing is in force, with 0, or it is refused, with its number: so the cleared point is made in one place.
fn missing(number: u8) -> InForce
    ensures { result ≡ none_in_force number }
{
    InForce {
        result: number,
        found: false,
        point: cleared_point(),
    }
}

// The point with the greatest number not above the picture, or nothing. Refuses only with 16.
pub fn lookup(table: &[Point], count: usize, picture: i32) -> InForce
    ensures answer { result ≡ lookup_answer table.now count picture }
{
    let seen = scan(table, count);
    let number = match plan::seek(seen, count, picture) {
        Ok(Some(entry)) => return held(table[usize::from(entry)]),
        Ok(None) => 0,
        Err(refusal) => refusal.number(),
    };
    missing(number)
}

// The answer of a placing, as of a join: 0 and the new count, or a refusal and 0.
#[derive(Clone, Copy, Debug, PartialEq, Eq)]
pub struct Placed {
    pub result: u8,
    pub count: usize,
}

impl From<Result<usize, Refusal>> for Placed {
    ghost from_gives = { λ outcome answer. answer ≡ placed outcome };

    fn from(outcome: Result<usize, Refusal>) -> Placed {
        match outcome {
            Ok(count) => Placed { result: 0, count },
            Err(refusal) => Placed {
                result: refusal.number(),
                count: 0,
            },
        }
    }
}

// A placing on the way to its answer: the new count, or which refusal. The record is judged before the table; the flag 0 leaves no point.
fn place_into(point: Point, table: &mut [Point]) -> Result<usize, Refusal>
    ensures outcome { placed result ≡ place_answer point (length table.old) }
    ensures table { table.new ≡ place_table table.old point }
{
    let shown = point.record;
    if !valid::is_valid(shown) {
        return Err(Refusal::NotValid);
    }
    if table.len() != plan::POINTS {
        return Err(Refusal::UnfitOutput);
    }
    table.fill(cleared_point());
    let stays = shown.refresh;
    if stays {
        table[0] = point;
        return Ok(1);
    }
    Ok(0)
}

// A track of one point in the lent table: the record, of a segment, at a picture; with the flag 0, which says that nothing follows, the
// empty track.
pub fn place(r: Record, picture: i32, segment: u16, table: &mut [Point]) -> Placed
    ensures answer { result ≡ place_answer (point_with r picture segment) (length table.old) }
    ensures table { table.new ≡ place_table table.old (point_with r picture segment) }
{
    let point = Point {
        picture,
        segment,
        record: r,
    };
    Placed::from(place_into(point, table))
}
