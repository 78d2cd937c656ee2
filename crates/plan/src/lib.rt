// What the track functions decide on picture numbers and places alone. No point is seen here.
#![tactic(auto)]

ghost use Rattle.std.specs.Prelude.{◌≡◌, true, ◌+◌, ◌<◌, ◌≤◌, length, take, pos, is_some, unwrap_or};
ghost use Rattle.plan.specs.Limit.{most_points};
ghost use Rattle.plan.specs.Scanning.{sized, extent_of, begun, rises_at, noted};
ghost use Rattle.plan.specs.Planning.{tag, RisingTags, first_tags, second_tags, tags_from, next_of, turn_of, taken_off, layout_of, merged, plan_of};
ghost use Rattle.plan.specs.Seeking.{reach_of, seek_of};

mod entry;

pub use entry::Entry;
use refusals::Refusal;
use std::cmp::Ordering;

// A table has exactly this many entries, so a track has no more points. (No heap: what is noted of a table, and a layout, are arrays of as many.)
pub const POINTS: usize = 64;

// The limit, as the definitions have it.
pub fn most_points() -> usize
    ensures { result ≡ most_points }
{
    POINTS
}

// What has been seen of a table so far: whether it may be a track, the last number, and the numbers.
// The flag stands beside the numbers, and no Result holds them: `noted` says of every table, track or not, which numbers were seen.
#[derive(Clone, Copy)]
pub struct Scanned {
    pub track: bool,
    pub last: i32,
    pub pictures: [i32; POINTS],
}

// The table and the count may be a track's.
fn is_sized(entries: usize, count: usize) -> bool
    ensures { result ≡ sized entries count }
{
    entries == POINTS && count <= POINTS
}

// How many entries are looked at: none where the table or the count is no track's.
pub fn extent(entries: usize, count: usize) -> usize
    ensures { result ≡ extent_of entries count }
{
    if is_sized(entries, count) { count } else { 0 }
}

pub fn begin(entries: usize, count: usize) -> Scanned
    ensures { result ≡ begun entries count }
{
    Scanned {
        track: is_sized(entries, count),
        last: 0,
        pictures: [0; POINTS],
    }
}

// The first number has none before it.
pub fn rises(index: usize, last: i32, picture: i32) -> bool
    ensures { result ≡ rises_at index last picture }
{
    (index == 0) | (last < picture)
}

// One point more: its number, and whether its record may stand in a track.
pub fn note(seen: Scanned, index: usize, picture: i32, usable: bool) -> Scanned
    requires { index < most_points }
    ensures { result ≡ noted seen index picture usable }
{
    let last = seen.last;
    let above = rises(index, last, picture);
    let mut next = seen;
    next.track = seen.track & usable & above;
    next.last = picture;
    next.pictures[index] = picture;
    next
}

// Where an entry of a result comes from: an entry of the first table, one of the second, or neither, and then it is a cleared one.
#[derive(Clone, Copy, Debug, PartialEq, Eq, Hash)]
pub enum Source {
    First(Entry),
    Second(Entry),
    Neither,
}

// How a result is to be filled: how many points it has, and where each of the 64 entries comes from.
#[derive(Clone, Copy)]
pub struct Layout {
    pub count: usize,
    pub sources: [Source; POINTS],
}

impl Layout {
    // Of every entry, in the table's order.
    pub fn sources(&self) -> &[Source]
        ensures { (result.now ≡ self.now.sources) × (length result.now ≡ most_points) }
    {
        &self.sources
    }
}

// What comes next in a join, and how many numbers it takes off each track.
#[derive(Clone, Copy)]
pub struct Turn {
    pub source: Source,
    pub left: usize,
    pub right: usize,
}

// Of the first track's next number and the second's, each where it is there, the lesser; the second's where they are equal, and then both
// are done with.
pub fn choose(e: Entry, first: Option<i32>, f: Entry, second: Option<i32>) -> Turn
    ensures { result ≡ turn_of (next_of (is_some first) (tag e.at (unwrap_or first (pos 0))) (is_some second) (tag (most_points + f.at) (unwrap_or second (pos 0)))) }
{
    let of_first = Turn {
        source: Source::First(e),
        left: 1,
        right: 0,
    };
    let of_second = Turn {
        source: Source::Second(f),
        left: 0,
        right: 1,
    };
    match (first, second) {
        (_, None) => of_first,
        (None, _) => of_second,
        (Some(x), Some(y)) => match x.cmp(&y) {
            Ordering::Less => of_first,
            Ordering::Equal => Turn {
                left: 1,
                ..of_second
            },
            Ordering::Greater => of_second,
        },
    }
}

// Every number of either, in rising order. A 65th is refused: counts are never added.
// The loop has its indexes: `choose` says how far each goes on, and no iterator takes from two lists so.
pub fn merge(a: &[i32], b: &[i32]) -> Result<Layout, Refusal>
    requires { (length a.now ≤ most_points) × (length b.now ≤ most_points) × RisingTags (tags_from 0 a.now) × RisingTags (tags_from most_points b.now) }
    ensures { result ≡ layout_of (merged a.now b.now) }
{
    let mut out = [Source::Neither; POINTS];
    let mut i = 0;
    let mut j = 0;
    let mut k = 0;
    while i + j < a.len() + b.len() {
        if k == POINTS {
            return Err(Refusal::TooManyPoints);
        }
        let x = a.get(i).copied();
        let y = b.get(j).copied();
        let turn = choose(Entry::at_most(i), x, Entry::at_most(j), y);
        out[k] = turn.source;
        i += turn.left;
        j += turn.right;
        k += 1;
    }
    Ok(Layout {
        count: k,
        sources: out,
    })
}

// The first track, the second, the result's table, and then the number of points.
pub fn decide(s: Scanned, n: usize, t: Scanned, m: usize, entries: usize) -> Result<Layout, Refusal>
    requires { (s.track ≡ true → (n ≤ most_points) × RisingTags (first_tags n s.pictures)) × (t.track ≡ true → (m ≤ most_points) × RisingTags (second_tags m t.pictures)) }
    ensures { result ≡ plan_of s n t m entries }
{
    if !s.track {
        return Err(Refusal::NotATrack);
    }
    if !t.track {
        return Err(Refusal::NotATrack);
    }
    if entries != POINTS {
        return Err(Refusal::UnfitOutput);
    }
    let a = &s.pictures[..n];
    let b = &t.pictures[..m];
    merge(a, b)
}

// How many of the numbers, which rise, are not above the picture. It is no `partition_point`: that asks its caller for the order, and
// `seek` asks for none.
pub fn reach(pictures: &[i32], picture: i32) -> usize
    ensures { result ≡ reach_of picture pictures.now }
{
    pictures
        .iter()
        .position(|k| picture < *k)
        .unwrap_or(pictures.len())
}

// The entry of the point in force, where there is one.
pub fn seek(seen: Scanned, n: usize, picture: i32) -> Result<Option<Entry>, Refusal>
    requires { seen.track ≡ true → n ≤ most_points }
    ensures { result ≡ seek_of seen n picture }
{
    if !seen.track {
        return Err(Refusal::NotATrack);
    }
    let k = reach(&seen.pictures[..n], picture);
    Ok(k.checked_sub(1).map(Entry::at_most))
}
