// Why data was refused, as numbers: the element, its value there, and which values are allowed. A refusal on its way holds which it is, its
// element and where that begins; the value and what is allowed are read again there, so that an accepted payload pays nothing for them.
#![tactic(auto)]

ghost use Rattle.std.specs.Prelude.{◌≡◌, ◌<◌, ◌^◌, drop};
ghost use Rattle.refusals.specs.Numbered.{number_of};
ghost use Rattle.tree.specs.Bits.{bits_of};
ghost use Rattle.syntax.specs.Data.{lengths, bare_data};
ghost use Rattle.syntax.specs.Told.{Tells};
ghost use Rattle.cause.specs.Cause.{nothing, untold, range, other, cause_by, cause_in};
ghost use Rattle.cause.specs.Shown.{ShownCode, ShownBlock};

use element::{Element, Refused};
use refusals::Refusal;

// What is told of the values that are allowed: nothing, where the element is not whole or has no value; those from the lowest to the highest,
// and none if the lowest is above it; or others than those that were met. Each stands with its number for C.
#[derive(Clone, Copy, Debug, PartialEq, Eq, Hash)]
pub enum Kind {
    Untold = 0,
    Range = 1,
    Other = 2,
}

// The lowest and the highest are 0 where there is no range. The value has 64 bits because it can be a number of bytes. It and the limits stand
// beside the kind, and not in it, because each crosses to C at a place of its own (pimlasut: put_facts), as a 0 where it is not told.
#[derive(Clone, Copy, Debug, PartialEq, Eq, Hash)]
pub struct Cause {
    pub element: Element,
    pub kind: Kind,
    pub value: u64,
    pub lowest: u16,
    pub highest: u16,
}

// Nothing was refused, or not for an element.
pub fn nothing() -> Cause
    ensures { result ≡ nothing }
{
    untold(Element::Nothing)
}

pub fn untold(element: Element) -> Cause
    ensures { result ≡ untold element }
{
    Cause {
        element,
        kind: Kind::Untold,
        value: 0,
        lowest: 0,
        highest: 0,
    }
}

pub fn range(element: Element, value: u64, lowest: u16, highest: u16) -> Cause
    ensures { result ≡ range element value lowest highest }
{
    Cause {
        element,
        kind: Kind::Range,
        value,
        lowest,
        highest,
    }
}

fn other(element: Element, value: u64) -> Cause
    ensures { result ≡ other element value }
{
    Cause {
        kind: Kind::Other,
        value,
        ..untold(element)
    }
}

// 9: a length, by the lengths that the level may have.
fn of_length(element: Element, size: u32, level: u8) -> Cause
    ensures { result ≡ cause_by element size (lengths level) }
{
    if record::is_known(level) {
        let bytes = record::bytes_of(level) as u16;
        range(element, size as u64, bytes, bytes)
    } else {
        range(element, size as u64, 0, block::MOST_RESERVED as u16)
    }
}

// 9, 10, 11, 17 to 19: the block's length is `size`, its level begins at `at`, and its fields behind that.
fn of_block(s: &[u8], at: usize, why: Refused, size: u32) -> Cause
    requires { (at < 2 ^ 33) × ShownBlock (number_of why.refusal) size (drop at (bits_of s.now)) why.element (cause_in (bare_data (bits_of s.now))) }
    ensures { result ≡ cause_in (bare_data (bits_of s.now)) }
{
    let level = bits::field(s, at, 8);
    match why.refusal {
        Refusal::WrongLength => of_length(why.element, size, level as u8),
        Refusal::NotInOrder => {
            let min = bits::field(s, at + 8, 12) as u16;
            let max = bits::field(s, at + 20, 12) as u16;
            let avg = bits::field(s, at + 32, 12) as u64;
            range(why.element, avg, min, max)
        }
        Refusal::RepeatedTarget => other(why.element, bits::field(s, at + 8, 12) as u64),
        _ => other(why.element, level as u64),
    }
}

// 4 to 6, and those above: the code that begins at the offset has the number v, and `at` is the position behind it.
fn of_code(s: &[u8], at: usize, why: Refused, v: u32) -> Cause
    requires { (at < 2 ^ 33) × ShownCode (number_of why.refusal) v (drop at (bits_of s.now)) why.element (cause_in (bare_data (bits_of s.now))) }
    ensures { result ≡ cause_in (bare_data (bits_of s.now)) }
{
    let element = why.element;
    match why.refusal {
        Refusal::WrongIdentifier => {
            let only = head::IDENTIFIER as u16;
            range(element, v as u64, only, only)
        }
        Refusal::WrongVersion => {
            let only = head::VERSION as u16;
            range(element, v as u64, only, only)
        }
        Refusal::TooManyBlocks => range(element, v as u64, 0, head::MOST_ANNOUNCED as u16),
        _ => of_block(s, at, why, v),
    }
}

// Of data that is refused so.
pub fn cause_at(s: &[u8], why: Refused) -> Cause
    requires { Tells (bare_data (bits_of s.now)) why }
    ensures { result ≡ cause_in (bare_data (bits_of s.now)) }
{
    let at = why.offset;
    match why.refusal {
        Refusal::PastEnd | Refusal::TooManyZeros => untold(why.element),
        Refusal::NotZero => range(why.element, 1, 0, 0),
        // the bytes behind those that were begun
        Refusal::BytesRemain => range(why.element, (s.len() - (at + 7) / 8) as u64, 0, 0),
        // each other refusal is of a code that was read
        _ => {
            let Ok(code) = bits::read_ue(s, at, bits::MOST_ZEROS) else {
                unreachable!()
            };
            of_code(s, at + code.width, why, code.value)
        }
    }
}
