// The record: a refresh flag, a block count and 18 places.
#![tactic(auto)]

ghost use Rattle.std.specs.Prelude.{◌≡◌, true, false, not, [], ◌∷◌, ◌+◌, ◌<◌, ◌≤◌, take};
ghost use Rattle.record.specs.Level.{level, known, padding, level_of};
ghost use Rattle.record.specs.Blocks.{most_blocks, no_blocks, empty_record, in_range, in_order};

// What a place holds: nothing, or a block of one of the three levels with that level's own fields, named as in A/341. (Not an Option: 01 has a
// place hold an enum of nothing and the three levels. It is taken apart where each field has its own width, key or number.)
#[derive(Clone, Copy, Debug, PartialEq, Eq)]
pub enum Block {
    Nothing,
    Level1 {
        min_pq: u16,
        max_pq: u16,
        avg_pq: u16,
    },
    Level2 {
        target_max_pq: u16,
        trim_slope: u16,
        trim_offset: u16,
        trim_power: u16,
        trim_chroma_weight: u16,
        trim_saturation_gain: u16,
        ms_weight: i16,
    },
    Level5 {
        left_offset: u16,
        right_offset: u16,
        top_offset: u16,
        bottom_offset: u16,
    },
}

#[derive(Clone, Copy, Debug, PartialEq, Eq)]
pub struct Place {
    pub block: Block,
}

// (01: the refresh flag, a block count and 18 places, of which exactly the first count hold a block. Every number is a record, valid or not.)
#[derive(Clone, Copy, Debug, PartialEq, Eq)]
pub struct Record {
    pub refresh: bool,
    pub count: u8,
    pub places: [Place; 18],
}

impl Record {
    pub const BLOCKS: u8 = 18;

    pub const BYTES: usize = 224;

    pub const WRAPPED_BYTES: usize = 232;

    // With the flag and no block.
    pub fn without_blocks(refresh: bool) -> Self
        ensures { result ≡ no_blocks refresh }
    {
        let p = Place {
            block: Block::Nothing,
        };
        Record {
            refresh,
            count: 0,
            places: [p; 18],
        }
    }

    pub fn empty() -> Self
        ensures { result ≡ empty_record }
    {
        Record::without_blocks(false)
    }
}

// A block's ext_block_level, 0 for nothing.
pub fn level_of(b: Block) -> u8
    ensures { result ≡ level_of b }
{
    match b {
        Block::Nothing => 0,
        Block::Level1 { .. } => 1,
        Block::Level2 { .. } => 2,
        Block::Level5 { .. } => 5,
    }
}

// A level stays the number that the payload holds, here and below: each of these says something of every number, reserved levels among them.
pub fn is_known(l: u8) -> bool
    ensures { result ≡ known l }
{
    matches!(l, 1 | 2 | 5)
}

// A level's ext_block_length.
pub fn bytes_of(l: u8) -> u8
    ensures { result ≡ (level l).bytes }
{
    match l {
        1 => 5,
        2 => 11,
        5 => 7,
        _ => 0,
    }
}

// A level's zero bits behind its fields.
#[tactic(auto, unfolding(tree::specs::Coding::total_width))]
pub fn padding_of(l: u8) -> u8
    ensures { result ≡ padding l }
{
    match l {
        1 => 4,
        2 => 3,
        5 => 4,
        _ => 0,
    }
}

// How many blocks of a level a record may hold.
pub fn most_of(l: u8) -> u8
    ensures { result ≡ (level l).most }
{
    match l {
        1 => 1,
        2 => 16,
        5 => 1,
        _ => 0,
    }
}

// Every field holds a number that its width holds.
#[tactic(auto, unfolding(tree::specs::Coding::hold_all))]
pub fn in_range(b: Block) -> bool
    ensures { result ≡ in_range b }
{
    match b {
        Block::Nothing => true,
        Block::Level1 {
            min_pq,
            max_pq,
            avg_pq,
        } => (min_pq < 4096) & (max_pq < 4096) & (avg_pq < 4096),
        Block::Level2 {
            target_max_pq,
            trim_slope,
            trim_offset,
            trim_power,
            trim_chroma_weight,
            trim_saturation_gain,
            ms_weight,
        } => {
            (target_max_pq < 4096)
                & (trim_slope < 4096)
                & (trim_offset < 4096)
                & (trim_power < 4096)
                & (trim_chroma_weight < 4096)
                & (trim_saturation_gain < 4096)
                & (-4096 <= ms_weight)
                & (ms_weight <= 4095)
        }
        Block::Level5 {
            left_offset,
            right_offset,
            top_offset,
            bottom_offset,
        } => {
            (left_offset < 8192)
                & (right_offset < 8192)
                & (top_offset < 8192)
                & (bottom_offset < 8192)
        }
    }
}

// Level 1 has min ≤ avg ≤ max.
pub fn in_order(b: Block) -> bool
    ensures { result ≡ in_order b }
{
    match b {
        Block::Level1 {
            min_pq,
            max_pq,
            avg_pq,
        } => (min_pq <= avg_pq) & (avg_pq <= max_pq),
        _ => true,
    }
}

// The limit on blocks, as the definitions have it.
pub fn most_blocks() -> u8
    ensures { result ≡ most_blocks }
{
    Record::BLOCKS
}
