// Reads the fields of a level at a bit position.
#![tactic(auto)]

ghost use Rattle.std.specs.Prelude.{◌≡◌, ◌+◌, ◌-◌, ◌*◌, ◌/◌, ◌%◌, ◌<◌, ◌≤◌, ◌^◌, length, drop, OnOk, IfErr};
ghost use Rattle.tree.specs.Bits.{bits_of};
ghost use Rattle.tree.specs.Reading.{mapped};
ghost use Rattle.tree.specs.Syntax.{row, read};
ghost use Rattle.record.specs.Level.{fields_of};
ghost use Rattle.syntax.specs.Data.{block_of};
ghost use Rattle.fields.specs.Step.{step_of, cut_behind, whole_fields};

use element::{Element, Refused};
use record::Block;
use refusals::Refusal;

// A block that was read and how many bits it took.
#[derive(Clone, Copy, Debug, PartialEq, Eq)]
pub struct Step {
    pub block: Block,
    pub width: usize,
}

// The names of each level's fields, in their order.
const LEVEL_1: [Element; 3] = [Element::MinPq, Element::MaxPq, Element::AvgPq];

const LEVEL_2: [Element; 7] = [
    Element::TargetMaxPq,
    Element::TrimSlope,
    Element::TrimOffset,
    Element::TrimPower,
    Element::TrimChromaWeight,
    Element::TrimSaturationGain,
    Element::MsWeight,
];

const LEVEL_5: [Element; 4] = [
    Element::ActiveAreaLeftOffset,
    Element::ActiveAreaRightOffset,
    Element::ActiveAreaTopOffset,
    Element::ActiveAreaBottomOffset,
];

// That fields of one width but for the last, n bits from `at` on, lie in the slice; or else the first of them that is cut off. The slice's
// length is looked at once, for they lie in its first (at + n + 7) / 8 bytes.
fn whole(s: &[u8], at: usize, n: usize, width: usize, names: &[Element]) -> Result<(), Refused>
    requires { (at < 2 ^ 31) × (at ≤ 8 * length s.now) × (n ≤ 85) × (0 < width) × (width ≤ 13) × (0 < length names.now) × (length names.now ≤ 7) }
    ensures there { OnOk result (at + n ≤ 8 * length s.now) }
    ensures cut_off { IfErr result (λ r. (8 * length s.now < at + n) × (r ≡ cut_behind names.now width at (whole_fields (8 * length s.now - at) width (length names.now - 1)))) }
{
    if (at + n + 7) / 8 <= s.len() {
        return Ok(());
    }
    let k = usize::min((8 * s.len() - at) / width, names.len() - 1);
    Err(Refused::at(Refusal::PastEnd, names[k], at + k * width))
}

// A field of n bits out of a word that has `behind` bits behind it.
fn field_in(word: u64, behind: usize, n: usize) -> u16
    requires { (behind < 64) × (n ≤ 16) }
    ensures { result ≡ word / 2 ^ behind % 2 ^ n }
{
    ((word >> behind) % (1u64 << n)) as u16
}

// The fields of level 1, out of one word. (Of each level a function: each makes its own variant, out of its own words.)
fn fields1(s: &[u8], at: usize) -> Result<Step, Refused>
    requires { (at < 2 ^ 31) × (at ≤ 8 * length s.now) }
    ensures { result ≡ step_of (mapped (block_of 1) (read (row (fields_of 1)) at (drop at (bits_of s.now)))) }
{
    whole(s, at, 36, 12, &LEVEL_1)?;
    let word = window::word(s, at, 36);
    let min_pq = field_in(word, 24, 12);
    let max_pq = field_in(word, 12, 12);
    let avg_pq = field_in(word, 0, 12);
    Ok(Step {
        block: Block::Level1 {
            min_pq,
            max_pq,
            avg_pq,
        },
        width: 36,
    })
}

// The fields of level 2, under their names in `Block`: four out of one word, three out of the next.
fn fields2(s: &[u8], at: usize) -> Result<Step, Refused>
    requires { (at < 2 ^ 31) × (at ≤ 8 * length s.now) }
    ensures { result ≡ step_of (mapped (block_of 2) (read (row (fields_of 2)) at (drop at (bits_of s.now)))) }
{
    whole(s, at, 85, 12, &LEVEL_2)?;
    let word = window::word(s, at, 48);
    let target_max_pq = field_in(word, 36, 12);
    let trim_slope = field_in(word, 24, 12);
    let trim_offset = field_in(word, 12, 12);
    let trim_power = field_in(word, 0, 12);
    let rest = window::word(s, at + 48, 37);
    let trim_chroma_weight = field_in(rest, 25, 12);
    let trim_saturation_gain = field_in(rest, 13, 12);
    let ms_weight = bits::to_signed(field_in(rest, 0, 13) as u32, 13) as i16;
    Ok(Step {
        block: Block::Level2 {
            target_max_pq,
            trim_slope,
            trim_offset,
            trim_power,
            trim_chroma_weight,
            trim_saturation_gain,
            ms_weight,
        },
        width: 85,
    })
}

// The fields of level 5.
fn fields5(s: &[u8], at: usize) -> Result<Step, Refused>
    requires { (at < 2 ^ 31) × (at ≤ 8 * length s.now) }
    ensures { result ≡ step_of (mapped (block_of 5) (read (row (fields_of 5)) at (drop at (bits_of s.now)))) }
{
    whole(s, at, 52, 13, &LEVEL_5)?;
    let word = window::word(s, at, 52);
    let left_offset = field_in(word, 39, 13);
    let right_offset = field_in(word, 26, 13);
    let top_offset = field_in(word, 13, 13);
    let bottom_offset = field_in(word, 0, 13);
    Ok(Step {
        block: Block::Level5 {
            left_offset,
            right_offset,
            top_offset,
            bottom_offset,
        },
        width: 52,
    })
}

// The fields of a level; a level that is not known has none.
pub fn fields_of(s: &[u8], at: usize, level: u8) -> Result<Step, Refused>
    requires { (at < 2 ^ 31) × (at ≤ 8 * length s.now) }
    ensures { result ≡ step_of (mapped (block_of level) (read (row (fields_of level)) at (drop at (bits_of s.now)))) }
{
    match level {
        1 => fields1(s, at),
        2 => fields2(s, at),
        5 => fields5(s, at),
        _ => Ok(Step {
            block: Block::Nothing,
            width: 0,
        }),
    }
}
