// Writes a record as ST2094-10_data into a lent buffer.
#![tactic(auto)]

ghost use Rattle.std.specs.Prelude.{◌≡◌, true, false, ◌+◌, ◌*◌, ◌≤◌, length, replicate, map, flat_map, sum_by};
ghost use Rattle.tree.specs.Bits.{code};
ghost use Rattle.tree.specs.Codes.{zeros_of};
ghost use Rattle.tree.specs.Coding.{fields_code, total_width};
ghost use Rattle.tree.specs.Reading.{to_boundary};
ghost use Rattle.tree.specs.Meaning.{all_bits, sum_of_widths};
ghost use Rattle.pen.specs.Writing.{start_pen, RoomForBits, Wrote};
ghost use Rattle.record.specs.Level.{codings, level_of, values_of};
ghost use Rattle.record.specs.Blocks.{most_blocks, block_in, in_range};
ghost use Rattle.output.specs.Output.{outcome_as};
ghost use Rattle.valid.specs.Valid.{every, valid};
ghost use Rattle.syntax.specs.Element.{head_elements, open_elements, block_elements, elements, payload, bits_of_data};
ghost use Rattle.writer.specs.Writing.{write_bare, bare_buffer, flag_code, block_code};

use output::Written;
use pen::Pen;
use record::{Block, Place, Record};
use refusals::Refusal;

// How many bits the ue(v) code of v has.
#[tactic(auto, using(crate::proofs::Room::zeros_of_byte))]
fn ue_bits(v: u8) -> usize
    ensures width { result ≡ 2 * zeros_of v + 1 }
    ensures bound { result ≤ 17 }
{
    2 * pen::zeros_of(v as u32) + 1
}

// How many bits a block has: its length's code, its level, and 8 × length bits.
#[tactic(auto, using(crate::proofs::Room::block_width))]
fn block_bits(b: Block) -> usize
    ensures width { result ≡ sum_of_widths (block_elements b) }
    ensures bound { result ≤ 103 }
{
    let bytes = record::bytes_of(record::level_of(b));
    ue_bits(bytes) + 8 + 8 * bytes as usize
}

// How many bits these blocks have.
fn blocks_bits(places: &[Place]) -> usize
    requires { length places.now ≤ most_blocks }
    ensures { result ≡ sum_by (λ (p : Place). sum_of_widths (block_elements p.block)) places.now }
{
    places.iter().map(|place| block_bits(place.block)).sum()
}

// How many bits the elements up to num_ext_blocks have. (Here and below the flag and the count stand for a record: `head_elements` and
// `open_elements` are of these two.)
#[tactic(auto, using(crate::proofs::Room::head_width))]
fn head_bits(refresh: bool, count: u8) -> usize
    ensures width { result ≡ sum_of_widths (head_elements refresh count) }
    ensures bound { result ≤ 22 }
{
    if refresh {
        return 5 + ue_bits(count);
    }
    5
}

// How many bits stand before the blocks.
#[tactic(auto, using(crate::proofs::Room::open_width))]
fn open_bits(refresh: bool, count: u8) -> usize
    ensures width { result ≡ sum_of_widths (open_elements refresh count) }
    ensures bound { result ≤ 29 }
{
    let head = head_bits(refresh, count);
    if count == 0 {
        return head;
    }
    head.next_multiple_of(8)
}

// How many bytes the payload of r has.
#[tactic(auto, using(crate::proofs::Room::blocks_width, crate::proofs::Room::blocks_small))]
pub fn bytes_needed(r: Record) -> usize
    requires { r.count ≤ most_blocks }
    ensures { result ≡ length (payload r) }
{
    let n = open_bits(r.refresh, r.count) + blocks_bits(&r.places[..r.count as usize]);
    n.div_ceil(8)
}

// Fields of one width, one behind another.
#[tactic(auto, using(crate::proofs::Parts::row_room, pen::proofs::Writing::wrote_none))]
fn put_row(out: &mut [u8], pen: Pen, n: usize, values: &[u16]) -> Pen
    requires { RoomForBits out.old pen (length (flat_map (code n) values.now)) × (n ≤ 16) }
    ensures { Wrote out.old pen (flat_map (code n) values.now) out.new result }
{
    let mut p = pen;
    for &value in values {
        p = p.put_u(out, n, value as u32);
    }
    p
}

// The fields of a block, each level's under their names in `Block`.
fn put_fields(out: &mut [u8], pen: Pen, b: Block) -> Pen
    requires { RoomForBits out.old pen (total_width (codings (level_of b))) × (in_range b ≡ true) }
    ensures { Wrote out.old pen (fields_code (codings (level_of b)) (values_of b)) out.new result }
{
    match b {
        Block::Nothing => pen,
        Block::Level1 {
            min_pq,
            max_pq,
            avg_pq,
        } => put_row(out, pen, 12, &[min_pq, max_pq, avg_pq]),
        Block::Level2 {
            target_max_pq,
            trim_slope,
            trim_offset,
            trim_power,
            trim_chroma_weight,
            trim_saturation_gain,
            ms_weight,
        } => {
            let trims = [
                target_max_pq,
                trim_slope,
                trim_offset,
                trim_power,
                trim_chroma_weight,
                trim_saturation_gain,
            ];
            put_row(out, pen, 12, &trims).put_i(out, 13, ms_weight as i32)
        }
        Block::Level5 {
            left_offset,
            right_offset,
            top_offset,
            bottom_offset,
        } => put_row(
            out,
            pen,
            13,
            &[left_offset, right_offset, top_offset, bottom_offset],
        ),
    }
}

// One ext_dm_data_block.
#[tactic(auto, using(crate::proofs::Parts::block_parts, crate::proofs::Room::bytes_small, crate::proofs::Parts::padding_small))]
fn put_block(out: &mut [u8], pen: Pen, b: Block) -> Pen
    requires { RoomForBits out.old pen (sum_of_widths (block_elements b)) × (in_range b ≡ true) }
    ensures { Wrote out.old pen (all_bits (block_elements b)) out.new result }
{
    let l = record::level_of(b);
    let bytes = record::bytes_of(l);
    let zeros = record::padding_of(l);
    let p = pen.put_ue(out, bytes as u32).put_u(out, 8, l as u32);
    put_fields(out, p, b).put_zeros(out, zeros as usize)
}

// metadata_refresh_flag, and if it is 1, num_ext_blocks.
#[tactic(auto, using(crate::proofs::Parts::length_flag, pen::proofs::Writing::wrote_then))]
fn put_flag(out: &mut [u8], pen: Pen, refresh: bool, count: u8) -> Pen
    requires { RoomForBits out.old pen (length (flag_code refresh count)) }
    ensures { Wrote out.old pen (flag_code refresh count) out.new result }
{
    if refresh {
        return pen.put_u(out, 1, 1).put_ue(out, count as u32);
    }
    pen.put_u(out, 1, 0)
}

// Zero bits to the next byte boundary. As far as there is a bit of it, a byte is there whole.
fn put_to_byte(out: &mut [u8], pen: Pen) -> Pen
    requires { RoomForBits out.old pen 0 }
    ensures { Wrote out.old pen (replicate (to_boundary (8 * pen.at + pen.waiting)) false) out.new result }
{
    pen.put_zeros(out, (8 - pen.waiting) % 8)
}

// The elements up to num_ext_blocks.
#[tactic(auto, using(crate::proofs::Parts::head_length))]
fn put_head(out: &mut [u8], refresh: bool, count: u8) -> Pen
    requires { sum_of_widths (head_elements refresh count) ≤ 8 * length out.old }
    ensures { Wrote out.old start_pen (all_bits (head_elements refresh count)) out.new result }
{
    let p = Pen::start().put_ue(out, 1).put_ue(out, 0);
    put_flag(out, p, refresh, count)
}

// All that stands before the blocks.
#[tactic(auto, using(crate::proofs::Room::open_least))]
fn put_open(out: &mut [u8], refresh: bool, count: u8) -> Pen
    requires { sum_of_widths (open_elements refresh count) ≤ 8 * length out.old }
    ensures { Wrote out.old start_pen (all_bits (open_elements refresh count)) out.new result }
{
    let p = put_head(out, refresh, count);
    if count == 0 {
        return p;
    }
    put_to_byte(out, p)
}

// The blocks of a record, from where they lie in it.
#[tactic(auto, using(crate::proofs::Room::every_at, pen::proofs::Writing::wrote_none))]
fn put_blocks(out: &mut [u8], pen: Pen, places: &[Place]) -> Pen
    requires { RoomForBits out.old pen (length (flat_map block_code places.now)) × (every in_range (map block_in places.now) ≡ true) }
    ensures { Wrote out.old pen (flat_map block_code places.now) out.new result }
{
    let mut p = pen;
    for place in places {
        p = put_block(out, p, place.block);
    }
    p
}

// The whole payload of a valid record.
#[tactic(auto, using(crate::proofs::Room::data_room))]
fn put_payload(out: &mut [u8], r: &Record) -> Pen
    requires { (bits_of_data r.now ≤ 8 * length out.old) × (valid r.now ≡ true) }
    ensures { Wrote out.old start_pen (all_bits (elements r.now)) out.new result }
{
    let blocks = &r.places[..r.count as usize];
    let p = put_open(out, r.refresh, r.count);
    let q = put_blocks(out, p, blocks);
    put_to_byte(out, q)
}

// Writes bare data: any record and any buffer get an answer.
pub fn write_data(r: Record, out: &mut [u8]) -> Written
    ensures result { result ≡ write_bare r out.old }
    ensures buffer { out.new ≡ bare_buffer r out.old }
{
    try_write(r, out).into()
}

// The same on the way to the answer: the bytes written, or which refusal.
pub fn try_write(r: Record, out: &mut [u8]) -> Result<usize, Refusal>
    ensures result { result ≡ outcome_as (payload r) (valid r) out.old }
    ensures buffer { out.new ≡ bare_buffer r out.old }
{
    if !valid::is_valid(r) {
        return Err(Refusal::NotValid);
    }
    let n = bytes_needed(r);
    if out.len() < n {
        return Err(Refusal::UnfitOutput);
    }
    put_payload(out, &r);
    Ok(n)
}
