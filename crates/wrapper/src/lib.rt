// ST2094-10_data in its ITU-T T.35 wrapper.
#![tactic(auto)]

ghost use Rattle.std.specs.Prelude.{◌≡◌, length};
ghost use Rattle.tree.specs.Bits.{bits_of};
ghost use Rattle.tree.specs.Syntax.{read};
ghost use Rattle.tree.specs.Wrapper.{wrapper_table};
ghost use Rattle.output.specs.Output.{outcome_as};
ghost use Rattle.record.specs.Name.{«wrapper»};
ghost use Rattle.valid.specs.Valid.{valid};
ghost use Rattle.syntax.specs.Element.{payload};
ghost use Rattle.syntax.specs.Largest.{largest};
ghost use Rattle.syntax.specs.Wrapper.{wrapper_bytes, wrapped_payload};
ghost use Rattle.wrapper.specs.Wrapper.{begins_with, read_wrapped, write_wrapped, wrapped_buffer, wrapper_of, without_room};

use cause::Cause;
use element::Element;
use output::Written;
use reader::Reading;
use record::Record;
use refusals::Refusal;

// How many bytes the wrapper has.
pub const WRAPPER_BYTES: usize = 8;

// They are country, provider, user identifier and type code.
const WRAPPER: [u8; 8] = [0xB5, 0x00, 0x31, 0x47, 0x41, 0x39, 0x34, 0x09];

// Why the wrapper's bytes are not there.
#[derive(Clone, Copy)]
struct Differs {
    refusal: Refusal,
    offset: u32,
    cause: Cause,
}

// The wrapper's bytes are compared from left to right. 02, e: a fault is told by its byte's offset, counted from the first.
fn check_wrapper(input: &[u8]) -> Result<(), Differs>
    ensures { result ≡ wrapper_of (read (wrapper_table «wrapper» wrapper_bytes) 0 (bits_of input.now)) }
{
    for (i, &due) in WRAPPER.iter().enumerate() {
        let Some(&byte) = input.get(i) else {
            return Err(Differs {
                refusal: Refusal::PastEnd,
                offset: i as u32,
                cause: cause::untold(Element::Wrapper),
            });
        };
        if byte != due {
            return Err(Differs {
                refusal: Refusal::WrapperDiffers,
                offset: i as u32,
                cause: cause::range(Element::Wrapper, byte as u64, due as u16, due as u16),
            });
        }
    }
    Ok(())
}

// Whether an input begins with the wrapper's bytes.
pub fn has_wrapper(input: &[u8]) -> bool
    ensures { result ≡ begins_with wrapper_bytes input.now }
{
    check_wrapper(input).is_ok()
}

// Reads wrapped data: any bytes get an answer.
pub fn read_wrapped(input: &[u8]) -> Reading
    ensures { result ≡ read_wrapped input.now }
{
    match check_wrapper(input) {
        Ok(()) => reader::read_data(&input[8..]),
        Err(why) => Reading::refused(why.refusal.number(), why.offset, true, why.cause),
    }
}

// Why nothing can be written where not even the wrapper has room: 14 before 13. (What it is told is a fact of the record, and not a step to take.)
pub fn without_room(good: bool) -> Refusal
    ensures { result ≡ without_room good }
{
    if good {
        return Refusal::UnfitOutput;
    }
    Refusal::NotValid
}

// Writes wrapped data: any record and any buffer get an answer.
pub fn write_wrapped(r: Record, out: &mut [u8]) -> Written
    ensures result { result ≡ write_wrapped r out.old }
    ensures buffer { out.new ≡ wrapped_buffer r out.old }
{
    try_write(r, out).into()
}

// The same on the way to the answer: the bytes written, or which refusal. The data comes first, since only its writer knows whether there is
// room for it; where that refuses, no byte has changed.
pub fn try_write(r: Record, out: &mut [u8]) -> Result<usize, Refusal>
    ensures result { result ≡ outcome_as (wrapped_payload r) (valid r) out.old }
    ensures buffer { out.new ≡ wrapped_buffer r out.old }
{
    if out.len() < WRAPPER_BYTES {
        return Err(without_room(valid::is_valid(r)));
    }
    let bytes = writer::try_write(r, &mut out[8..])?;
    out[..8].copy_from_slice(&WRAPPER);
    Ok(WRAPPER_BYTES + bytes)
}

// The largest payload, bare and wrapped: the limits that the record type carries are those of the syntax.
pub fn most_bytes() -> usize
    ensures { result ≡ length (payload largest) }
{
    Record::BYTES
}

pub fn most_wrapped_bytes() -> usize
    ensures { result ≡ length (wrapped_payload largest) }
{
    Record::WRAPPED_BYTES
}
