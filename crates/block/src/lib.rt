// Reads one ext_dm_data_block at a bit position.
#![tactic(auto)]

ghost use Rattle.std.specs.Prelude.{◌≡◌, ℕ, ◌+◌, ◌*◌, ◌<◌, ◌≤◌, ◌^◌, pos, length, drop};
ghost use Rattle.tree.specs.Bits.{bits_of};
ghost use Rattle.tree.specs.Syntax.{read};
ghost use Rattle.syntax.specs.Data.{most_reserved, reserved_content, block};
ghost use Rattle.block.specs.Parts.{part_of, after_fields, content_from, body, after_length};

use element::{Element, Refused};
use record::Block;
use refusals::Refusal;

// 02, b: a block of a reserved level has at most so many bytes.
pub const MOST_RESERVED: u32 = 1023;

// A block of a known level, which is kept, or one of a reserved level, which is passed over, and how many bits it took.
#[derive(Clone, Copy, Debug, PartialEq, Eq)]
pub enum Part {
    Kept { width: usize, block: Block },
    Passed { width: usize },
}

impl Part {
    ghost use Rattle.block.specs.Parts.{part_behind, part_took};

    // The same, behind n bits that are taken already.
    // The same, behind n bits that are taken already. (`head::Opening` has one too: this is over an enum, that over a struct.)
    fn behind(self, n: usize) -> Self
        requires { n + part_took self < 2 ^ 64 }
        ensures { result ≡ part_behind n self }
    {
        match self {
            Part::Kept { width, block } => Part::Kept {
                width: n + width,
                block,
            },
            Part::Passed { width } => Part::Passed { width: n + width },
        }
    }
}

// What follows the fields of a block that begins at `start`: its level's zero bits, then the order of level 1. 02, e: here and below, a fault
// that is found once the block, or its length and level, are read points at the block's length.
fn after_fields(s: &[u8], start: usize, at: usize, level: u8, block: Block) -> Result<Part, Refused>
    requires { (start < 2 ^ 32) × (at < 2 ^ 30) }
    ensures { result ≡ part_of (read (after_fields start level block) at (drop at (bits_of s.now))) }
{
    let gap = bits::read_zeros(s, at, record::padding_of(level) as usize);
    let zeros = gap.map_err(|why| Refused::of(Element::ExtDmAlignmentZeroBit, why))?;
    if !record::in_order(block) {
        return Err(Refused::at(Refusal::NotInOrder, Element::AvgPq, start));
    }
    Ok(Part::Kept {
        width: zeros.width,
        block,
    })
}

// The fields of a level and what follows them.
fn read_content(s: &[u8], start: usize, at: usize, level: u8) -> Result<Part, Refused>
    requires { (start < 2 ^ 32) × (at < 2 ^ 29) × (at ≤ 8 * length s.now) }
    ensures { result ≡ part_of (read (content_from start level) at (drop at (bits_of s.now))) }
{
    let fields = fields::fields_of(s, at, level)?;
    let rest = after_fields(s, start, at + fields.width, level, fields.block)?;
    Ok(rest.behind(fields.width))
}

// The content of a reserved block, of any level, whose length is `size` bytes: it is passed over, and the slice's length is looked at
// once, for 8 * size bits from `at` on lie in its first (at + 8 * size + 7) / 8 bytes. The first bit that is missing stands where it ends.
fn skip(s: &[u8], at: usize, size: u32) -> Result<Part, Refused>
    requires { (at < 2 ^ 29) × (at ≤ 8 * length s.now) × (size ≤ most_reserved) }
    ensures { (level : ℕ) → result ≡ part_of (read (reserved_content level size) at (drop at (bits_of s.now))) }
{
    let bits = 8 * size as usize;
    if s.len() < (at + bits + 7) / 8 {
        return Err(Refused::at(
            Refusal::PastEnd,
            Element::ExtDmAlignmentZeroBit,
            8 * s.len(),
        ));
    }
    Ok(Part::Passed { width: bits })
}

// What follows a block's length and level. 01, Refusal numbers: 9 before anything of the content is read.
fn read_body(s: &[u8], start: usize, at: usize, size: u32, level: u8) -> Result<Part, Refused>
    requires { (start < 2 ^ 32) × (at < 2 ^ 29) × (at ≤ 8 * length s.now) }
    ensures { result ≡ part_of (read (body start (pos size) (pos level)) at (drop at (bits_of s.now))) }
{
    if record::is_known(level) {
        let bytes = record::bytes_of(level) as u32;
        let fits = size == bytes;
        if !fits {
            return Err(Refused::at(Refusal::WrongLength, Element::ExtBlockLength, start));
        }
        return read_content(s, start, at, level);
    }
    if size > MOST_RESERVED {
        return Err(Refused::at(Refusal::WrongLength, Element::ExtBlockLength, start));
    }
    skip(s, at, size)
}

// What follows a block's length: its level, and the rest.
fn after_length(s: &[u8], start: usize, at: usize, size: u32) -> Result<Part, Refused>
    requires { (start < 2 ^ 32) × (at < 2 ^ 28) }
    ensures { result ≡ part_of (read (after_length start (pos size)) at (drop at (bits_of s.now))) }
{
    let byte = bits::read_u(s, at, 8);
    let level = byte.map_err(|why| Refused::of(Element::ExtBlockLevel, why))?;
    let rest = read_body(s, start, at + level.width, size, level.value as u8)?;
    Ok(rest.behind(level.width))
}

// One ext_dm_data_block: its length, and what follows it.
pub fn read_block(s: &[u8], at: usize) -> Result<Part, Refused>
    requires { at < 2 ^ 27 }
    ensures { result ≡ part_of (read block at (drop at (bits_of s.now))) }
{
    let code = bits::read_ue(s, at, bits::MOST_ZEROS);
    let size = code.map_err(|why| Refused::of(Element::ExtBlockLength, why))?;
    let rest = after_length(s, at, at + size.width, size.value)?;
    Ok(rest.behind(size.width))
}
