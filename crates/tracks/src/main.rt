// Runs track's place, lookup and join over lent tables, on cases made by hand, and prints a line for each: what was given, and the outcome.
// A table is printed as its count, its number of entries and the points in the count; a point as its picture, its record and its
// segment. A lookup is printed with the point that it answers.
// A table is lent as the first entries of an array of 65 points. A record is told by the min_PQ of its one block, which is
// of level 1 with avg_PQ 4,000; there are four other records.
#![tactic(auto)]

use record::{Block, Record};
use std::io::Write;
use std::{fmt, io};
use track::{Joined, Point};

const ROOM: usize = 65;

// ---- records and points
// Which record it is.
#[derive(Clone, Copy, PartialEq, Eq)]
enum Told {
    // Valid, with a block of this min_PQ.
    MinPq(u16),
    // Flag 0, no block.
    Empty,
    // Flag 1, no block: it switches earlier metadata off.
    Off,
    // Flag 0 and a block, so not valid.
    Hidden,
    // A block that is not in order.
    NotValid,
}

fn pq(min_pq: u16) -> Told {
    Told::MinPq(min_pq)
}

impl fmt::Display for Told {
    fn fmt<W: fmt::Write>(&self, f: &mut fmt::Formatter<W>) -> fmt::Result {
        match self {
            Told::MinPq(min_pq) => write!(f, "{min_pq}"),
            Told::Empty => write!(f, "empty"),
            Told::Off => write!(f, "off"),
            Told::Hidden | Told::NotValid => write!(f, "not valid"),
        }
    }
}

fn level_1(refresh: bool, min_pq: u16) -> Record {
    let b = Block::Level1 {
        min_pq,
        max_pq: 4095,
        avg_pq: 4000,
    };
    valid::with_block(Record::without_blocks(refresh), b)
}

fn record_of(told: Told) -> Record {
    match told {
        Told::MinPq(min_pq) => level_1(true, min_pq),
        Told::Empty => Record::empty(),
        Told::Off => Record::without_blocks(true),
        Told::Hidden => level_1(false, 100),
        Told::NotValid => level_1(true, 4001),
    }
}

// A valid record with flag 0 is the empty one.
fn told_of(shown: Record) -> Told {
    if !valid::is_valid(shown) {
        return Told::NotValid;
    }
    if !shown.refresh {
        return Told::Empty;
    }
    match shown.places[0].block {
        Block::Nothing => Told::Off,
        Block::Level1 { min_pq, .. } => Told::MinPq(min_pq),
        _ => Told::NotValid,
    }
}

fn point_of(segment: u16, picture: i32, told: Told) -> Point {
    Point {
        picture,
        segment,
        record: record_of(told),
    }
}

fn say_point<W: Write>(out: &mut W, p: &Point) -> io::Result<()> {
    write!(out, " {}/{}/{}", p.picture, told_of(p.record), p.segment)
}

// ---- tables
// The numbers stand beside the points, and no slice holds them: some cases lend entries or a count that are not the points'.
#[derive(Clone, Copy)]
struct Table {
    entries: usize,
    count: usize,
    points: [Point; ROOM],
}

impl Table {
    fn none() -> Table {
        Table {
            entries: plan::POINTS,
            count: 0,
            points: [track::cleared_point(); ROOM],
        }
    }

    fn push(&mut self, point: Point) {
        if self.count < ROOM {
            self.points[self.count] = point;
            self.count += 1;
        }
    }

    // Each point by its segment, its picture and its record.
    fn of(points: &[(u16, i32, Told)]) -> Table {
        let mut t = Table::none();
        for (segment, picture, told) in points {
            t.push(point_of(*segment, *picture, *told));
        }
        t
    }

    // Points of a segment at from, from + 1, .. with min_PQ pq, pq + 1, ..
    fn long(segment: u16, from: u8, count: u8, pq: u8) -> Table {
        let mut t = Table::none();
        for k in 0..count {
            let picture = i32::from(from) + i32::from(k);
            let min_pq = u16::from(pq) + u16::from(k);
            t.push(point_of(segment, picture, Told::MinPq(min_pq)));
        }
        t
    }

    // The same points with another number of entries, or another count.
    fn sized(self, entries: usize) -> Table {
        Table { entries, ..self }
    }

    fn counted(self, count: usize) -> Table {
        Table { count, ..self }
    }

    // The entries that are lent.
    fn lent(&self) -> &[Point] {
        &self.points[..self.entries.min(ROOM)]
    }
}

// The points that a result's table held before: not one is cleared.
fn used() -> Table {
    Table::long(9, 200, 65, 180)
}

// ---- what a table holds afterwards
// The next number of the same segment, with the next record.
fn follows(p: &Point, q: &Point) -> bool {
    let records = match (told_of(p.record), told_of(q.record)) {
        (Told::MinPq(m), Told::MinPq(n)) => n == m.wrapping_add(1),
        _ => false,
    };
    records
        && p.segment == q.segment
        && 0 <= p.picture
        && p.picture.checked_add(1) == Some(q.picture)
}

fn say_entry<W: Write>(out: &mut W, p: &Point, inner: bool, was_inner: bool) -> io::Result<()> {
    if !inner {
        say_point(out, p)
    } else if !was_inner {
        write!(out, " ..")
    } else {
        Ok(())
    }
}

// The points of a track; of a run of numbers with a run of records, its two ends.
fn say_points<W: Write>(out: &mut W, points: &[Point; ROOM], count: usize) -> io::Result<()> {
    let shown = &points[..count.min(plan::POINTS)];
    let mut goes_on = false;
    let mut was_inner = false;
    for (k, p) in shown.iter().enumerate() {
        let on = match shown.get(k + 1) {
            Some(next) => follows(p, next),
            None => false,
        };
        let inner = goes_on && on;
        say_entry(out, p, inner, was_inner)?;
        was_inner = inner;
        goes_on = on;
    }
    Ok(())
}

// Whether the entries past the count are cleared, and whether each entry is what it was.
fn say_left<W: Write>(
    out: &mut W,
    before: &[Point; ROOM],
    after: &[Point; ROOM],
    count: usize,
) -> io::Result<()> {
    let cleared = track::cleared_point();
    if after
        .iter()
        .enumerate()
        .all(|(k, p)| k < count || k == plan::POINTS || *p == cleared)
    {
        write!(out, ", rest cleared")?;
    }
    if before == after {
        write!(out, ", unchanged")?;
    }
    writeln!(out)
}

fn say_change<W: Write>(
    out: &mut W,
    before: &[Point; ROOM],
    after: &[Point; ROOM],
    entries: usize,
    number: u8,
    count: usize,
) -> io::Result<()> {
    write!(out, " in {entries}: result={number} count={count}")?;
    say_points(out, after, count)?;
    say_left(out, before, after, count)
}

// Of a count above 64 no point is printed.
fn say_table<W: Write>(out: &mut W, t: &Table) -> io::Result<()> {
    write!(out, " {} of {}", t.count, t.entries)?;
    if t.count <= plan::POINTS {
        say_points(out, &t.points, t.count)?;
    }
    Ok(())
}

// ---- cases
fn place<W: Write>(
    out: &mut W,
    entries: usize,
    segment: u16,
    picture: i32,
    told: Told,
) -> io::Result<()> {
    write!(out, "place")?;
    say_point(out, &point_of(segment, picture, told))?;
    let before = used().points;
    let mut after = before;
    let answer = track::place(
        record_of(told),
        picture,
        segment,
        &mut after[..entries.min(ROOM)],
    );
    say_change(out, &before, &after, entries, answer.result, answer.count)
}

fn places<W: Write>(out: &mut W) -> io::Result<()> {
    place(out, 64, 1, 7, pq(100))?;
    place(out, 64, 0, i32::MIN, pq(100))?;
    place(out, 64, 65535, i32::MAX, pq(100))?;
    place(out, 64, 1, 7, Told::Off)?;
    // the segment of a record that makes no point stands nowhere
    place(out, 64, 1, 7, Told::Empty)?;
    place(out, 64, 1, 7, Told::NotValid)?;
    place(out, 64, 1, 7, Told::Hidden)?;
    place(out, 63, 1, 7, pq(100))?;
    place(out, 65, 1, 7, pq(100))?;
    place(out, 0, 1, 7, pq(100))?;
    place(out, 63, 1, 7, Told::Empty)?;
    place(out, 63, 1, 7, Told::NotValid)?;
    place(out, 65, 1, 7, Told::NotValid)
}

fn look_up<W: Write>(out: &mut W, t: &Table, picture: i32) -> io::Result<()> {
    write!(out, "lookup")?;
    say_table(out, t)?;
    let answer = track::lookup(t.lent(), t.count, picture);
    let found = u8::from(answer.found);
    write!(out, " at {picture}: result={} found={found}", answer.result)?;
    say_point(out, &answer.point)?;
    writeln!(out)
}

fn lookups<W: Write>(out: &mut W) -> io::Result<()> {
    // three points of three segments
    let t = Table::of(&[(4, -5, pq(10)), (5, 0, pq(20)), (6, 7, pq(30))]);
    look_up(out, &t, i32::MIN)?;
    look_up(out, &t, -6)?;
    look_up(out, &t, -5)?;
    look_up(out, &t, -1)?;
    look_up(out, &t, 0)?;
    look_up(out, &t, 6)?;
    look_up(out, &t, 7)?;
    look_up(out, &t, 8)?;
    look_up(out, &t, i32::MAX)?;
    let ends = Table::of(&[(1, i32::MIN, pq(1)), (1, i32::MAX, pq(2))]);
    look_up(out, &ends, i32::MIN)?;
    look_up(out, &ends, i32::MIN + 1)?;
    look_up(out, &ends, i32::MAX - 1)?;
    look_up(out, &ends, i32::MAX)?;
    look_up(out, &Table::none(), 0)?;
    look_up(out, &Table::of(&[(1, 0, pq(1)), (1, 5, Told::Off)]), 5)?;
    let full = Table::long(1, 0, 64, 1);
    look_up(out, &full, 40)?;
    look_up(out, &full, 1000)
}

fn refused_lookups<W: Write>(out: &mut W) -> io::Result<()> {
    let t = Table::of(&[(1, -5, pq(10)), (1, 0, pq(20)), (1, 7, pq(30))]);
    look_up(out, &t.sized(63), 7)?;
    look_up(out, &t.sized(65), 7)?;
    look_up(out, &Table::none().sized(63), 0)?;
    look_up(out, &t.counted(65), 7)?;
    let many = Table::long(1, 0, 65, 1);
    look_up(out, &many, 40)?;
    look_up(out, &many.sized(65), 40)?;
    look_up(out, &Table::of(&[(1, 5, pq(2)), (1, 3, pq(3))]), 5)?;
    look_up(out, &Table::of(&[(1, 5, pq(2)), (1, 5, pq(3))]), 5)?;
    look_up(
        out,
        &Table::of(&[(1, i32::MAX, pq(1)), (1, i32::MIN, pq(2))]),
        0,
    )?;
    look_up(out, &Table::of(&[(1, 0, pq(1)), (1, 5, Told::NotValid)]), 0)?;
    look_up(out, &Table::of(&[(1, 0, pq(1)), (1, 5, Told::Hidden)]), 0)?;
    look_up(out, &Table::of(&[(1, 0, pq(1)), (1, 5, Told::Empty)]), 0)
}

// What lies past the count is ignored: a later point, a number that does not rise, a record that is not valid.
fn cut_lookups<W: Write>(out: &mut W) -> io::Result<()> {
    look_up(
        out,
        &Table::of(&[(1, -5, pq(10)), (1, 0, pq(20)), (1, 7, pq(30))]).counted(2),
        8,
    )?;
    look_up(
        out,
        &Table::of(&[(1, 0, pq(1)), (1, 5, pq(2)), (1, 3, pq(3))]).counted(2),
        9,
    )?;
    look_up(
        out,
        &Table::of(&[(1, 0, pq(1)), (1, 5, pq(2)), (1, 7, Told::NotValid)]).counted(2),
        9,
    )
}

fn join_into(a: &Table, b: &Table, points: &mut [Point; ROOM], entries: usize) -> Joined {
    track::join(
        a.lent(),
        a.count,
        b.lent(),
        b.count,
        &mut points[..entries.min(ROOM)],
    )
}

fn join<W: Write>(out: &mut W, a: &Table, b: &Table, entries: usize) -> io::Result<()> {
    write!(out, "join")?;
    say_table(out, a)?;
    write!(out, " and")?;
    say_table(out, b)?;
    let before = used().points;
    let mut after = before;
    let answer = join_into(a, b, &mut after, entries);
    say_change(out, &before, &after, entries, answer.result, answer.count)
}

// A join as a track of its own.
fn join_of(a: &Table, b: &Table) -> Table {
    let mut points = used().points;
    let answer = join_into(a, b, &mut points, plan::POINTS);
    Table {
        entries: plan::POINTS,
        count: answer.count,
        points,
    }
}

fn joins<W: Write>(out: &mut W) -> io::Result<()> {
    let a = Table::of(&[(1, 0, pq(1)), (1, 4, pq(2)), (1, 8, pq(3))]);
    let b = Table::of(&[(2, 4, pq(20)), (2, 6, pq(30))]);
    join(out, &a, &b, 64)?;
    join(out, &b, &a, 64)?;
    join(out, &a, &a, 64)?;
    join(out, &Table::of(&[(2, 5, pq(7))]), &a, 64)?;
    let empty = Table::none();
    join(out, &a, &empty, 64)?;
    join(out, &empty, &a, 64)?;
    join(out, &empty, &empty, 64)?;
    join(
        out,
        &Table::of(&[(1, i32::MAX, pq(1))]),
        &Table::of(&[(2, i32::MIN, pq(2))]),
        64,
    )?;
    join(
        out,
        &Table::of(&[(1, 3, pq(1))]),
        &Table::of(&[(2, 3, Told::Off)]),
        64,
    )?;
    // equal records of another segment: the second's
    let d = Table::of(&[(65535, 0, pq(1)), (65535, 4, pq(2)), (65535, 8, pq(3))]);
    join(out, &a, &d, 64)?;
    join(out, &d, &a, 64)?;
    // and another record of the same
    join(out, &Table::of(&[(1, 4, pq(20))]), &a, 64)?;
    // past the counts
    join(out, &a.counted(2), &b.counted(1), 64)?;
    // three, in both groupings
    let c = Table::of(&[(3, 0, pq(100)), (3, 6, pq(200)), (3, 9, pq(300))]);
    join(out, &join_of(&a, &b), &c, 64)?;
    join(out, &a, &join_of(&b, &c), 64)
}

fn long_joins<W: Write>(out: &mut W) -> io::Result<()> {
    let first = Table::long(1, 0, 40, 1);
    join(out, &first, &Table::long(2, 40, 24, 101), 64)?;
    join(out, &first, &Table::long(2, 40, 25, 101), 64)?;
    join(out, &first, &Table::long(2, 24, 40, 101), 64)?;
    join(out, &first, &Table::long(2, 25, 40, 101), 64)?;
    let full = Table::long(1, 0, 64, 1);
    join(out, &full, &Table::none(), 64)?;
    join(out, &full, &Table::long(2, 0, 64, 101), 64)?;
    join(out, &full, &Table::long(2, 64, 64, 101), 64)?;
    // 13 before 15
    let more = Table::of(&[(2, -1, pq(2))]);
    join(out, &full, &more, 64)?;
    join(out, &full, &more, 63)?;
    join(out, &full, &more, 65)
}

fn refused_joins<W: Write>(out: &mut W) -> io::Result<()> {
    let a = Table::of(&[(1, 0, pq(1)), (1, 4, pq(2)), (1, 8, pq(3))]);
    let b = Table::of(&[(2, 4, pq(20)), (2, 6, pq(30))]);
    let equal = Table::of(&[(3, 4, pq(1)), (3, 4, pq(2))]);
    join(out, &a.sized(63), &b, 64)?;
    join(out, &a.sized(65), &b, 64)?;
    join(out, &a.counted(65), &b, 64)?;
    join(out, &equal, &b, 64)?;
    join(out, &Table::of(&[(1, 4, Told::NotValid)]), &b, 64)?;
    join(out, &Table::of(&[(1, 4, Told::Empty)]), &b, 64)?;
    join(out, &a, &b.sized(63), 64)?;
    join(out, &a, &b.sized(65), 64)?;
    join(out, &a, &b.counted(65), 64)?;
    join(out, &a, &equal, 64)?;
    join(out, &a, &Table::of(&[(1, 4, Told::NotValid)]), 64)?;
    join(out, &a, &Table::of(&[(1, 4, Told::Empty)]), 64)?;
    join(out, &equal, &equal, 64)?;
    join(out, &a, &b, 63)?;
    join(out, &a, &b, 65)?;
    // 16 before 13 and before 15
    join(out, &equal, &b, 63)?;
    join(out, &a, &equal, 65)?;
    join(out, &Table::long(1, 0, 64, 1), &equal, 64)
}

fn main(rt: HostRuntime) -> io::Result<()> {
    let out = &mut rt.stdout();
    places(out)?;
    lookups(out)?;
    refused_lookups(out)?;
    cut_lookups(out)?;
    joins(out)?;
    long_joins(out)?;
    refused_joins(out)
}
