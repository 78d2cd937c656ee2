// What the known blocks that were read leave open: whether one more may follow them, without a look at the record that holds them.
#![tactic(auto)]

ghost use Rattle.std.specs.Prelude.{◌≡◌, true, false, List, [], ◌∷◌, ◌++◌, ◌≤◌, take};
ghost use Rattle.record.specs.declared.Block.{Block};
ghost use Rattle.record.specs.Blocks.{in_range};
ghost use Rattle.valid.specs.Valid.{among, may_follow};
ghost use Rattle.met.specs.Met.{most_targets, target_of, Counts, met_of, repeat_of};

use record::Block;
use refusals::Refusal;

// How many level 2 blocks there may be.
const TARGETS: u8 = 16;

// Stands where no target_max_PQ was met: no field of 12 bits holds it.
const NO_TARGET: u16 = 65535;

// The target_max_PQ of a level 2 block.
pub fn target_of(b: Block) -> Option<u16>
    ensures { result ≡ target_of b }
{
    match b {
        Block::Level2 {
            target_max_pq: t,
            ..
        } => Some(t),
        _ => None,
    }
}

// Whether a block of level 1 and one of level 5 were met, how many of level 2, and the target_max_PQ values of these. There is an entry more
// than there may be of them, so that a block that is included has a place whether it may stand there or not. All sixteen are compared, however many were met, which the compiler does eight
// at a time: so there is a number where no target is, and no list with its length.
#[derive(Clone, Copy, Debug, PartialEq, Eq)]
pub struct Met {
    pub one: bool,
    pub five: bool,
    pub twos: u8,
    pub targets: [u16; 17],
}

impl Met {
    pub fn nothing() -> Self
        ensures { result ≡ met_of [] }
    {
        Met {
            one: false,
            five: false,
            twos: 0,
            targets: [NO_TARGET; 17],
        }
    }

    // Whether t is one of the first 16 targets. All are looked at, so that no step hangs on the one before.
    fn has_target(&self, t: u16) -> bool
        ensures { result ≡ among t (take most_targets self.now.targets) }
    {
        self.targets[..TARGETS as usize]
            .iter()
            .fold(false, |met, &target| met | (target == t))
    }

    // Whether b, whose fields are in range, may stand behind the blocks that were met.
    pub fn admits(&self, b: Block) -> bool
        requires { in_range b ≡ true }
        ensures { (before : List Block) → self.now ≡ met_of before → result ≡ may_follow before b }
    {
        match b {
            Block::Nothing => false,
            Block::Level1 { .. } => !self.one,
            Block::Level2 {
                target_max_pq: t,
                ..
            } => (self.twos < TARGETS) & !self.has_target(t),
            Block::Level5 { .. } => !self.five,
        }
    }

    // 02, e: which repeat b is, where it may not stand behind the blocks that were met: one too many of its level, or else a target_max_PQ
    // already met.
    pub fn repeat_of(&self, b: Block) -> Option<Refusal>
        ensures { (before : List Block) → Counts self.now before → may_follow before b ≡ false → result ≡ repeat_of before b }
    {
        match b {
            Block::Nothing => None,
            Block::Level1 { .. } => Some(Refusal::SecondLevel1),
            Block::Level2 { .. } if self.twos < TARGETS => Some(Refusal::RepeatedTarget),
            Block::Level2 { .. } => Some(Refusal::SeventeenthLevel2),
            Block::Level5 { .. } => Some(Refusal::SecondLevel5),
        }
    }

    // b is one more of the blocks that were met.
    pub fn include(&mut self, b: Block)
        requires { self.old.twos ≤ most_targets }
        ensures kept { (before : List Block) → self.old ≡ met_of before → self.new ≡ met_of (before ++ (b ∷ [])) }
        ensures counts { (before : List Block) → Counts self.old before → Counts self.new (before ++ (b ∷ [])) }
    {
        match b {
            Block::Level1 { .. } => self.one = true,
            Block::Level5 { .. } => self.five = true,
            _ => {}
        }
        if let Some(t) = target_of(b) {
            self.targets[self.twos as usize] = t;
            self.twos += 1;
        }
    }
}
