// Reads ST2094-10_data from a lent slice.
#![tactic(auto)]

ghost use Rattle.std.specs.Prelude.{◌≡◌, cond, ◌<◌, ◌^◌, eqb, drop};
ghost use Rattle.refusals.specs.Refusals.{repeated_target};
ghost use Rattle.refusals.specs.Numbered.{number_of};
ghost use Rattle.tree.specs.Bits.{bits_of};
ghost use Rattle.tree.specs.Reading.{ok};
ghost use Rattle.tree.specs.Syntax.{read};
ghost use Rattle.element.specs.declared.Element.TheVariants.{ExtBlockLevel, TargetMaxPq};
ghost use Rattle.syntax.specs.Data.{announced, bare_data};
ghost use Rattle.syntax.specs.Told.{Tells};
ghost use Rattle.head.specs.Opening.{opening};
ghost use Rattle.reader.specs.Reading.{refused_reading, unplaced, read_bare, end_from, end_of};

use block::Part;
use cause::Cause;
use element::{Element, Refused};
use met::Met;
use record::{Place, Record};
use refusals::Refusal;

// 0 or the number of the refusal, the number of blocks of reserved levels that were passed over and whether a refusal is in the wrapper
// (beside it, where they take no room of their own), the bits read, where a refused element begins, why it is refused, and the record.
// (A number and no Result: by 01, on a refusal the bits read are 0 and the record is empty, and README names the fields.)
#[derive(Clone, Copy)]
pub struct Reading {
    pub result: u8,
    pub skipped: u8,
    pub in_wrapper: bool,
    pub bits: u32,
    pub offset: u32,
    pub cause: Cause,
    pub record: Record,
}

impl Reading {
    // 01, The record: beside a refusal the record is empty. 02, e: a fault in the wrapper is marked.
    pub fn refused(number: u8, offset: u32, in_wrapper: bool, cause: Cause) -> Self
        ensures { result ≡ refused_reading number offset in_wrapper cause }
    {
        let record = Record::empty();
        Reading {
            result: number,
            skipped: 0,
            in_wrapper,
            bits: 0,
            offset,
            cause,
            record,
        }
    }
}

// 02, e and f: a refusal of no element, as of a unit, has no place and no cause. (It takes a number, as it promises its answer for each.)
pub fn unplaced(number: u8) -> Reading
    ensures { result ≡ unplaced number }
{
    Reading::refused(number, 0, false, cause::nothing())
}

// Data that is refused: what is not known of it yet is read again where the element begins.
fn refused_data(s: &[u8], why: Refused) -> Reading
    requires { Tells (bare_data (bits_of s.now)) why }
    ensures { result ≡ read_bare s.now }
{
    let cause = cause::cause_at(s, why);
    Reading::refused(why.refusal.number(), why.offset as u32, false, cause)
}

// The element that a repeat is about.
fn repeated(refusal: Refusal) -> Element
    ensures { result ≡ cond (eqb (number_of refusal) repeated_target) TargetMaxPq ExtBlockLevel }
{
    match refusal {
        Refusal::RepeatedTarget => Element::TargetMaxPq,
        _ => Element::ExtBlockLevel,
    }
}

// What stands behind the last block: zero bits to the next byte boundary, where the input ends. The answer is the position there.
fn read_end(s: &[u8], at: usize) -> Result<u32, Refused>
    requires { at < 2 ^ 30 }
    ensures { result ≡ end_of (end_from at (drop at (bits_of s.now))) }
{
    let gap = bits::read_zeros(s, at, head::zeros_behind(true, at));
    let zeros = gap.map_err(|why| Refused::of(Element::DmAlignmentZeroBit, why))?;
    let end = at + zeros.width;
    if end / 8 < s.len() {
        return Err(Refused::at(Refusal::BytesRemain, Element::End, end));
    }
    Ok(end as u32)
}

// The answer, where the head was read and announces n blocks, which begin at `start`: each block may follow the known ones before it, with
// nothing between them, and behind the last the data ends. The record is made where it lies, and what was met of the blocks is kept beside
// it, because each call with a record, and each answer with one, copies its places.
fn read_blocks(s: &[u8], start: usize, refresh: bool, n: u8) -> Reading
    requires { read opening 0 (bits_of s.now) ≡ ok (announced refresh n) start }
    ensures { result ≡ read_bare s.now }
{
    let mut r = Record::without_blocks(refresh);
    let mut seen = Met::nothing();
    let mut width: usize = 0;
    let mut skipped: u8 = 0;
    for _i in 0..n {
        let at = start + width;
        let part = match block::read_block(s, at) {
            Ok(part) => part,
            Err(why) => return refused_data(s, why),
        };
        match part {
            Part::Passed { width: w } => {
                skipped += 1;
                width += w;
            }
            Part::Kept { block, width: m } => {
                if !seen.admits(block) {
                    let refusal = seen.repeat_of(block).unwrap();
                    return refused_data(s, Refused::at(refusal, repeated(refusal), at));
                }
                seen.include(block);
                r.places[r.count as usize] = Place { block };
                r.count += 1;
                width += m;
            }
        }
    }
    match read_end(s, start + width) {
        Err(why) => refused_data(s, why),
        Ok(bits) => Reading {
            result: 0,
            skipped,
            in_wrapper: false,
            bits,
            offset: 0,
            cause: cause::nothing(),
            record: r,
        },
    }
}

// Reads bare data: any bytes get an answer.
pub fn read_data(input: &[u8]) -> Reading
    ensures { result ≡ read_bare input.now }
{
    match head::read_head(input) {
        Err(why) => refused_data(input, why),
        Ok(opening) => read_blocks(input, opening.width, opening.refresh, opening.count),
    }
}
