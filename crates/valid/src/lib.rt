// Whether a record is valid, decided by a walk over its blocks; and a record with one block more.
#![tactic(auto)]

ghost use Rattle.std.specs.Prelude.{◌≡◌, not, [], ◌∷◌, ◌<◌, ◌≤◌, length, map, take};
ghost use Rattle.record.specs.Blocks.{most_blocks, block_in, all_blocks};
ghost use Rattle.valid.specs.Valid.{every, is_nothing, new_target, may_follow, valid_block, well_formed, with_block, valid};

use record::{Block, Place, Record};

// Two level 2 blocks with one target_max_PQ.
fn same_target(a: Block, b: Block) -> bool
    ensures { result ≡ not (new_target (a ∷ []) b) }
{
    match (a, b) {
        (
            Block::Level2 {
                target_max_pq: x,
                ..
            },
            Block::Level2 {
                target_max_pq: y,
                ..
            },
        ) => x == y,
        _ => false,
    }
}

// Whether b may stand behind the blocks of the places before it.
fn follows(before: &[Place], b: Block) -> bool
    requires { length before.now ≤ most_blocks }
    ensures { result ≡ may_follow (map block_in before.now) b }
{
    let l = record::level_of(b);
    let mut seen = 0u8;
    let mut met = false;
    for place in before {
        seen += u8::from(record::level_of(place.block) == l);
        met |= same_target(place.block, b);
    }
    (seen < record::most_of(l)) & !met
}

// Whether b may stand behind the first n blocks of r.
pub fn may_follow(r: Record, n: u8, b: Block) -> bool
    requires { n ≤ most_blocks }
    ensures { result ≡ may_follow (take n (all_blocks r)) b }
{
    follows(&r.places[..n as usize], b)
}

// The record with b as its next block.
pub fn with_block(mut r: Record, b: Block) -> Record
    requires { r.count < most_blocks }
    ensures { result ≡ with_block r b }
{
    r.places[r.count as usize] = Place { block: b };
    r.count += 1;
    r
}

// Whether b is a block that is fine by itself.
fn is_fine(b: Block) -> bool
    ensures { result ≡ valid_block b }
{
    (record::level_of(b) != 0) & record::in_range(b) & record::in_order(b)
}

// Whether each place holds a block that is fine and may stand behind those before it.
fn is_well_formed(places: &[Place]) -> bool
    requires { length places.now ≤ most_blocks }
    ensures { result ≡ well_formed [] (map block_in places.now) }
{
    for (i, place) in places.iter().enumerate() {
        if !(is_fine(place.block) && follows(&places[..i], place.block)) {
            return false;
        }
    }
    true
}

// Whether no place holds a block.
fn is_empty(places: &[Place]) -> bool
    ensures { result ≡ every is_nothing (map block_in places.now) }
{
    places
        .iter()
        .all(|place| matches!(place.block, Block::Nothing))
}

// Whether r is a valid record: the walk over its blocks, then over the places behind them.
pub fn is_valid(r: Record) -> bool
    ensures { result ≡ valid r }
{
    let n = r.count;
    if Record::BLOCKS < n {
        return false;
    }
    let (blocks, behind) = r.places.split_at(n as usize);
    is_well_formed(blocks) && is_empty(behind) && (r.refresh | (n == 0))
}
