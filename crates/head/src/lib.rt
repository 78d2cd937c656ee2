// Reads what stands before the blocks of ST2094-10_data: table E.1.1 of A/341 as far as num_ext_blocks, and the zero bits behind it.
#![tactic(auto)]

ghost use Rattle.std.specs.Prelude.{◌≡◌, cond, ◌+◌, ◌<◌, ◌≤◌, ◌^◌, drop};
ghost use Rattle.tree.specs.Bits.{bits_of};
ghost use Rattle.tree.specs.Reading.{to_boundary};
ghost use Rattle.tree.specs.Syntax.{read};
ghost use Rattle.syntax.specs.Data.{announced, block_count, head};
ghost use Rattle.head.specs.Opening.{opening_of, opening_behind, from_flag, from_version, aligned_head, opening};

use element::{Element, Refused};
use refusals::Refusal;

// A/341, E.1: the one app_identifier and app_version that this reader knows.
pub const IDENTIFIER: u32 = 1;

pub const VERSION: u32 = 0;

// 02, b: up to 254 blocks may be announced.
pub const MOST_ANNOUNCED: u32 = 254;

// What stands before the blocks and how many bits it took.
#[derive(Clone, Copy, Debug, PartialEq, Eq, Hash)]
pub struct Opening {
    pub refresh: bool,
    pub count: u8,
    pub width: usize,
}

impl Opening {
    // The same, behind n bits that are taken already. (`block::Part` has one too: this is over a struct, that over an enum.)
    fn behind(self, n: usize) -> Self
        requires { n + self.width < 2 ^ 64 }
        ensures { result ≡ opening_behind n self }
    {
        Opening {
            width: n + self.width,
            ..self
        }
    }
}

// num_ext_blocks, which is checked when its code is complete.
fn read_count(s: &[u8], at: usize) -> Result<Opening, Refused>
    requires { at < 2 ^ 30 }
    ensures { result ≡ opening_of (read block_count at (drop at (bits_of s.now))) }
{
    let code = bits::read_ue(s, at, bits::MOST_ZEROS);
    let count = code.map_err(|why| Refused::of(Element::NumExtBlocks, why))?;
    if count.value > MOST_ANNOUNCED {
        return Err(Refused::at(Refusal::TooManyBlocks, Element::NumExtBlocks, at));
    }
    Ok(Opening {
        refresh: true,
        count: count.value as u8,
        width: count.width,
    })
}

// metadata_refresh_flag, and if it is 1, num_ext_blocks.
fn read_flag(s: &[u8], at: usize) -> Result<Opening, Refused>
    requires { at < 2 ^ 20 }
    ensures { result ≡ opening_of (read from_flag at (drop at (bits_of s.now))) }
{
    let bit = bits::read_u(s, at, 1);
    let flag = bit.map_err(|why| Refused::of(Element::MetadataRefreshFlag, why))?;
    if flag.value != 1 {
        return Ok(Opening {
            refresh: false,
            count: 0,
            width: flag.width,
        });
    }
    Ok(read_count(s, at + flag.width)?.behind(flag.width))
}

// app_version, and what follows it. (Like app_identifier, below: the must-fail edits tell the two apart by their lines.)
fn read_version(s: &[u8], at: usize) -> Result<Opening, Refused>
    requires { at < 2 ^ 10 }
    ensures { result ≡ opening_of (read from_version at (drop at (bits_of s.now))) }
{
    let code = bits::read_ue(s, at, bits::MOST_ZEROS);
    let version = code.map_err(|why| Refused::of(Element::AppVersion, why))?;
    if version.value != VERSION {
        return Err(Refused::at(Refusal::WrongVersion, Element::AppVersion, at));
    }
    Ok(read_flag(s, at + version.width)?.behind(version.width))
}

// app_identifier, and what follows it.
fn read_identifier(s: &[u8]) -> Result<Opening, Refused>
    ensures { result ≡ opening_of (read head 0 (bits_of s.now)) }
{
    let code = bits::read_ue(s, 0, bits::MOST_ZEROS);
    let identifier = code.map_err(|why| Refused::of(Element::AppIdentifier, why))?;
    if identifier.value != IDENTIFIER {
        return Err(Refused::at(Refusal::WrongIdentifier, Element::AppIdentifier, 0));
    }
    Ok(read_version(s, identifier.width)?.behind(identifier.width))
}

// How many bits are missing from n bits to the next byte boundary, if the test says that zero bits stand there. (What it is told is a fact of
// the data, and no choice between two steps.)
pub fn zeros_behind(test: bool, n: usize) -> usize
    ensures { (result ≡ cond test (to_boundary n) 0) × (result ≤ 7) }
{
    if test { (8 - n % 8) % 8 } else { 0 }
}

// What stands before the blocks, and zero bits to the next byte boundary if there are blocks.
pub fn read_head(s: &[u8]) -> Result<Opening, Refused>
    ensures { result ≡ opening_of (read opening 0 (bits_of s.now)) }
{
    let head = read_identifier(s)?;
    let gap = bits::read_zeros(s, head.width, zeros_behind(head.count != 0, head.width));
    let zeros = gap.map_err(|why| Refused::of(Element::DmAlignmentZeroBit, why))?;
    Ok(Opening {
        width: head.width + zeros.width,
        ..head
    })
}
