// A record as a row of numbers, for callers that have no Record.
#![tactic(auto)]

ghost use Rattle.std.specs.Prelude.{◌≡◌, ◌+◌, ◌*◌, ◌≤◌, length, take, drop};
ghost use Rattle.std.proofs.Math.Seq.{paste};
ghost use Rattle.record.specs.Blocks.{most_blocks};
ghost use Rattle.flat.specs.Flat.{place_length, flat_length, flat_block, flat_places, flat, unsigned_in, block_said, block_named, unnamed_record, record_in, record_beside};

use record::{Block, Place, Record};

// How many numbers a place has, and a record: the flag, the count and its places. (Here and below a row stands with a place in it: `tables` has
// records within points within rows, and a slice from there on would be cut anew at each.)
pub const PLACE: usize = 8;

const BLOCKS: usize = Record::BLOCKS as usize;

pub const NUMBERS: usize = 2 + PLACE * BLOCKS;

// The number where a u16 holds it, and else 0.
pub fn unsigned(number: i32) -> u16
    ensures { result ≡ unsigned_in 16 number }
{
    u16::try_from(number).unwrap_or(0)
}

// The eight numbers of a block: its level, or 0 for nothing, then its fields in syntax order, and zeros.
fn eight_of(block: Block) -> [i32; 8]
    ensures { result ≡ flat_block block }
{
    match block {
        Block::Nothing => [0; 8],
        Block::Level1 {
            min_pq,
            max_pq,
            avg_pq,
        } => [
            1,
            i32::from(min_pq),
            i32::from(max_pq),
            i32::from(avg_pq),
            0,
            0,
            0,
            0,
        ],
        Block::Level2 {
            target_max_pq,
            trim_slope,
            trim_offset,
            trim_power,
            trim_chroma_weight,
            trim_saturation_gain,
            ms_weight,
        } => [
            2,
            i32::from(target_max_pq),
            i32::from(trim_slope),
            i32::from(trim_offset),
            i32::from(trim_power),
            i32::from(trim_chroma_weight),
            i32::from(trim_saturation_gain),
            i32::from(ms_weight),
        ],
        Block::Level5 {
            left_offset,
            right_offset,
            top_offset,
            bottom_offset,
        } => [
            5,
            i32::from(left_offset),
            i32::from(right_offset),
            i32::from(top_offset),
            i32::from(bottom_offset),
            0,
            0,
            0,
        ],
    }
}

// What eight numbers say by their level, each field as far as its type holds it.
fn block_of(eight: [i32; 8]) -> Block
    ensures { result ≡ block_said eight }
{
    match eight {
        [1, min, max, avg, ..] => Block::Level1 {
            min_pq: unsigned(min),
            max_pq: unsigned(max),
            avg_pq: unsigned(avg),
        },
        [2, target, slope, offset, power, chroma, gain, weight] => Block::Level2 {
            target_max_pq: unsigned(target),
            trim_slope: unsigned(slope),
            trim_offset: unsigned(offset),
            trim_power: unsigned(power),
            trim_chroma_weight: unsigned(chroma),
            trim_saturation_gain: unsigned(gain),
            ms_weight: i16::try_from(weight).unwrap_or(0),
        },
        [5, left, right, top, bottom, ..] => Block::Level5 {
            left_offset: unsigned(left),
            right_offset: unsigned(right),
            top_offset: unsigned(top),
            bottom_offset: unsigned(bottom),
        },
        _ => Block::Nothing,
    }
}

// The eight numbers that stand at a place of a row.
fn eight_at(row: &[i32], at: usize) -> [i32; 8]
    requires { at + place_length ≤ length row.now }
    ensures { result ≡ take place_length (drop at row.now) }
{
    let mut eight = [0; 8];
    for k in 0..PLACE {
        eight[k] = row[at + k];
    }
    eight
}

// By index, here and above: `copy_from_slice` makes the eight numbers beside the row first, and a join for C then misses its mark (docs/BENCH.md).
fn put_eight(row: &mut [i32], at: usize, eight: [i32; 8])
    requires { at + place_length ≤ length row.old }
    ensures { row.new ≡ paste row.old at eight place_length }
{
    for k in 0..PLACE {
        row[at + k] = eight[k];
    }
}

// The block that eight numbers name, or nothing.
pub fn get_block(row: &[i32], at: usize) -> Block
    requires { at + place_length ≤ length row.now }
    ensures { result ≡ block_named (take place_length (drop at row.now)) }
{
    let eight = eight_at(row, at);
    let block = block_of(eight);
    if eight == eight_of(block) {
        return block;
    }
    Block::Nothing
}

// The places of a record, pasted behind its flag and count.
fn put_places(row: &mut [i32], at: usize, r: Record)
    requires { at + flat_length ≤ length row.old }
    ensures { row.new ≡ paste row.old (at + 2) (flat_places r.places) (place_length * most_blocks) }
{
    for (i, place) in r.places.iter().enumerate() {
        put_eight(row, at + 2 + PLACE * i, eight_of(place.block));
    }
}

// Writes the numbers of a record into a row, from a place of it on.
pub fn put_record(row: &mut [i32], at: usize, r: Record)
    requires { at + flat_length ≤ length row.old }
    ensures { row.new ≡ paste row.old at (flat r) flat_length }
{
    row[at] = i32::from(r.refresh);
    row[at + 1] = i32::from(r.count);
    put_places(row, at, r);
}

// A record that is not valid.
fn not_valid() -> Record
    ensures { result ≡ unnamed_record }
{
    let mut r = Record::empty();
    r.count = 1;
    r
}

// The record that the numbers from a place of a row on name, or one that is not valid where they name none, or where what stands beside
// them names nothing. (That is asked here, and not by the caller, so that a record is built at one place and not copied.)
pub fn get_beside(row: &[i32], at: usize, beside: bool) -> Record
    requires { at + flat_length ≤ length row.now }
    ensures { result ≡ record_beside beside (take flat_length (drop at row.now)) }
{
    let flag = row[at];
    let number = row[at + 1];
    let count = u8::try_from(number).unwrap_or(0);
    let refresh = flag == 1;
    let mut r = Record::without_blocks(refresh);
    r.count = count;
    let mut named = beside & ((flag == i32::from(refresh)) & (number == i32::from(count)));
    for (i, place) in r.places.iter_mut().enumerate() {
        let eight = eight_at(row, at + 2 + PLACE * i);
        let block = block_of(eight);
        named = named & (eight == eight_of(block));
        *place = Place { block };
    }
    if named {
        return r;
    }
    not_valid()
}

// The same, with nothing beside.
pub fn get_record(row: &[i32], at: usize) -> Record
    requires { at + flat_length ≤ length row.now }
    ensures { result ≡ record_in (take flat_length (drop at row.now)) }
{
    get_beside(row, at, true)
}
