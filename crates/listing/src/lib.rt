// Writes the listing of a reading, key=value lines in ASCII, into a lent buffer.
#![tactic(auto, unfolding(text::specs::Text::text, text::specs::Text::ascii, crate::specs::Listing::field_lines))]

ghost use Rattle.std.specs.Prelude.{◌≡◌, true, [], ◌∷◌, ◌≤◌, length, pos};
ghost use Rattle.output.specs.Output.{outcome_as};
ghost use Rattle.text.specs.Text.{text};
ghost use Rattle.text.specs.Page.{HasRoom, TypedOn};
ghost use Rattle.record.specs.Level.{level, level_of, values_of};
ghost use Rattle.record.specs.Blocks.{most_blocks, blocks};
ghost use Rattle.listing.specs.Listing.{field_lines, block_lines, blocks_lines, head_lines, accepted_lines, listing, listable, write_listing, listing_buffer};
ghost use Rattle.listing.specs.Longest.{longest};

use output::Written;
use reader::Reading;
use record::{Block, Record};
use refusals::Refusal;
use text::Page;

// The longest lines before the blocks, and the longest of a block of each level.
const HEAD: usize = (*b"result=0\nrefresh=1\nbits=4294967295\nblocks=18\n").len();

const LEVEL_1: usize = (*b"level=1\nmin=4095\nmax=4095\navg=4095\n").len();

const LEVEL_2: usize =
    (*b"level=2\ntarget=4095\nslope=4095\noffset=4095\npower=4095\nchroma=4095\nsaturation=4095\nms=-4096\n").len();

const LEVEL_5: usize = (*b"level=5\nleft=8191\nright=8191\ntop=8191\nbottom=8191\n").len();

// Beside one block of level 1 and one of level 5, all blocks are of level 2.
const TRIMS: usize = Record::BLOCKS as usize - 2;

// No listing has more bytes.
pub const BYTES: usize = HEAD + LEVEL_1 + TRIMS * LEVEL_2 + LEVEL_5;

// Of each level a function: the keys are its own, and level 2 ends with a number that has a sign. A row of keys and values for one function
// would be written for each level all the same.
fn put_level1(page: &mut Page, min: u16, max: u16, avg: u16)
    requires { HasRoom page.old (text (field_lines (level 1).fields (pos min ∷ pos max ∷ pos avg ∷ []))) }
    ensures { TypedOn page.old (text (field_lines (level 1).fields (pos min ∷ pos max ∷ pos avg ∷ []))) page.new }
{
    page.put_two(b"min=", min as u64, b"max=", max as u64);
    page.put_line(b"avg=", avg as u64);
}

fn put_level2(
    page: &mut Page,
    target: u16,
    slope: u16,
    offset: u16,
    power: u16,
    chroma: u16,
    saturation: u16,
    weight: i16,
)
    requires { HasRoom page.old (text (field_lines (level 2).fields (pos target ∷ pos slope ∷ pos offset ∷ pos power ∷ pos chroma ∷ pos saturation ∷ weight ∷ []))) }
    ensures { TypedOn page.old (text (field_lines (level 2).fields (pos target ∷ pos slope ∷ pos offset ∷ pos power ∷ pos chroma ∷ pos saturation ∷ weight ∷ []))) page.new }
{
    page.put_two(b"target=", target as u64, b"slope=", slope as u64);
    page.put_two(b"offset=", offset as u64, b"power=", power as u64);
    page.put_two(b"chroma=", chroma as u64, b"saturation=", saturation as u64);
    page.put_signed(b"ms=", weight);
}

fn put_level5(page: &mut Page, left: u16, right: u16, top: u16, bottom: u16)
    requires { HasRoom page.old (text (field_lines (level 5).fields (pos left ∷ pos right ∷ pos top ∷ pos bottom ∷ []))) }
    ensures { TypedOn page.old (text (field_lines (level 5).fields (pos left ∷ pos right ∷ pos top ∷ pos bottom ∷ []))) page.new }
{
    page.put_two(b"left=", left as u64, b"right=", right as u64);
    page.put_two(b"top=", top as u64, b"bottom=", bottom as u64);
}

// The fields of a block.
fn put_fields(page: &mut Page, b: Block)
    requires { HasRoom page.old (text (field_lines (level (level_of b)).fields (values_of b))) }
    ensures { TypedOn page.old (text (field_lines (level (level_of b)).fields (values_of b))) page.new }
{
    match b {
        Block::Nothing => (),
        Block::Level1 {
            min_pq,
            max_pq,
            avg_pq,
        } => put_level1(page, min_pq, max_pq, avg_pq),
        Block::Level2 {
            target_max_pq,
            trim_slope,
            trim_offset,
            trim_power,
            trim_chroma_weight,
            trim_saturation_gain,
            ms_weight,
        } => put_level2(
            page,
            target_max_pq,
            trim_slope,
            trim_offset,
            trim_power,
            trim_chroma_weight,
            trim_saturation_gain,
            ms_weight,
        ),
        Block::Level5 {
            left_offset,
            right_offset,
            top_offset,
            bottom_offset,
        } => put_level5(page, left_offset, right_offset, top_offset, bottom_offset),
    }
}

// The level, and the fields.
fn put_block(page: &mut Page, b: Block)
    requires { HasRoom page.old (text (block_lines b)) }
    ensures { TypedOn page.old (text (block_lines b)) page.new }
{
    page.put_line(b"level=", record::level_of(b) as u64);
    put_fields(page, b);
}

// The blocks of a record.
fn put_blocks(page: &mut Page, r: Record)
    requires { HasRoom page.old (text (blocks_lines (blocks r))) × (r.count ≤ most_blocks) }
    ensures { TypedOn page.old (text (blocks_lines (blocks r))) page.new }
{
    for place in &r.places[..r.count as usize] {
        put_block(page, place.block);
    }
}

// What stands before the blocks.
fn put_head(page: &mut Page, refresh: bool, bits: u32, count: u8)
    requires { HasRoom page.old (text (head_lines refresh bits count)) }
    ensures { TypedOn page.old (text (head_lines refresh bits count)) page.new }
{
    page.put_two(b"result=", 0, b"refresh=", refresh as u64);
    page.put_two(b"bits=", bits as u64, b"blocks=", count as u64);
}

fn put_accepted(page: &mut Page, r: Record, bits: u32)
    requires { HasRoom page.old (text (accepted_lines r bits)) × (r.count ≤ most_blocks) }
    ensures { TypedOn page.old (text (accepted_lines r bits)) page.new }
{
    put_head(page, r.refresh, bits, r.count);
    put_blocks(page, r);
}

// A refusal is its result line only.
fn put_listing(page: &mut Page, q: Reading)
    requires { HasRoom page.old (listing q) × (listable q ≡ true) }
    ensures { TypedOn page.old (listing q) page.new }
{
    let accepted = q.result == 0;
    if accepted {
        put_accepted(page, q.record, q.bits);
    } else {
        page.put_line(b"result=", q.result as u64);
    }
}

// Whether the reading has a listing.
fn is_listable(q: Reading) -> bool
    ensures { result ≡ listable q }
{
    q.result != 0 || valid::is_valid(q.record)
}

// The text is made on a page of its own, because its length is known only then, and a buffer that is too short must stay as it is.
fn try_write(q: Reading, out: &mut [u8]) -> Result<usize, Refusal>
    ensures result { result ≡ outcome_as (listing q) (listable q) out.old }
    ensures buffer { out.new ≡ listing_buffer q out.old }
{
    if !is_listable(q) {
        return Err(Refusal::NotValid);
    }
    let mut bytes = [0u8; BYTES];
    let mut page = Page {
        out: &mut bytes,
        at: 0,
    };
    put_listing(&mut page, q);
    let n = page.at;
    output::hand_over(&bytes[..n], out)
}

// Writes the listing of a reading: any reading and any buffer get an answer.
pub fn write_listing(q: Reading, out: &mut [u8]) -> Written
    ensures result { result ≡ write_listing q out.old }
    ensures buffer { out.new ≡ listing_buffer q out.old }
{
    try_write(q, out).into()
}

// The longest listing: the limit is that of the definitions.
pub fn most_bytes() -> usize
    ensures { result ≡ length (listing longest) }
{
    BYTES
}
