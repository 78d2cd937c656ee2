// An H.265 SEI NAL unit whole: two header bytes, emulation prevention bytes, messages, and the trailing byte.
#![tactic(auto)]

ghost use Rattle.std.specs.Prelude.{◌≡◌, true, ◌++◌, ◌≤◌, ◌<◌, ◌^◌, length};
ghost use Rattle.output.specs.Output.{outcome_as, buffer_as};
ghost use Rattle.valid.specs.Valid.{valid};
ghost use Rattle.emulation.specs.Emulation.{removed, escaped};
ghost use Rattle.messages.specs.Answer.{read_messages};
ghost use Rattle.sei.specs.Header.{allowed_header, admitted, most_unit_bytes};
ghost use Rattle.sei.specs.SeiUnit.{checked, behind_header, read_unit, write_unit, unit_buffer, our_header, unit_bytes, sufficient_bytes};

use output::Written;
use reader::Reading;
use record::Record;
use refusals::Refusal;

// Ours: a unit has at most so many bytes, as it arrives.
pub const MOST_BYTES: usize = 4096;

// How many bytes of output always suffice: one byte is inserted for two at most. It is a bound, and not the longest.
pub const WRITTEN_BYTES: usize = HEADER_BYTES + messages::BYTES + messages::BYTES / 2;

const HEADER_BYTES: usize = 2;

// Ours: a prefix unit in layer 0, with a temporal id plus one of 1.
const HEADER: [u8; HEADER_BYTES] = [0x4E, 0x01];

// nal_unit_type of prefix and suffix units.
const PREFIX: u8 = 39;

const SUFFIX: u8 = 40;

// The first header byte is forbidden_zero_bit, nal_unit_type and the first bit of nuh_layer_id; the second ends with
// nuh_temporal_id_plus1.
fn is_allowed(first: u8, second: u8) -> bool
    ensures { result ≡ allowed_header first second }
{
    let kind = first / 2 % 64;
    (first / 128 == 0) & (((kind == PREFIX) | (kind == SUFFIX)) & (second % 8 != 0))
}

// Whether the unit's length and header are allowed.
fn is_admitted(input: &[u8]) -> bool
    ensures { result ≡ admitted input.now }
{
    match *input {
        [first, second, ..] => (input.len() <= MOST_BYTES) & is_allowed(first, second),
        _ => false,
    }
}

// What stands behind the header of a unit that has an allowed one and holds no start code.
fn check_unit(input: &[u8]) -> Result<&[u8], Refusal>
    ensures { behind_header result ≡ checked input.now }
{
    if !is_admitted(input) {
        return Err(Refusal::WrongUnit);
    }
    if emulation::has_forbidden(input) {
        return Err(Refusal::StartCodeInside);
    }
    Ok(&input[HEADER_BYTES..])
}

// The messages of a unit, which stand behind its header with emulation bytes. There is no heap: the bytes without them take the room of
// the longest unit, and only the part that they fill is handed on.
fn read_body(input: &[u8]) -> Reading
    requires { length input.now ≤ most_unit_bytes }
    ensures { result ≡ read_messages (removed input.now) }
{
    let mut body = [0u8; MOST_BYTES];
    let n = emulation::remove(input, &mut body);
    messages::read_messages(&body[..n])
}

// Reads a unit: any bytes get an answer.
pub fn read_unit(input: &[u8]) -> Reading
    ensures { result ≡ read_unit input.now }
{
    match check_unit(input) {
        Ok(body) => read_body(body),
        Err(refusal) => reader::unplaced(refusal.number()),
    }
}

// Writes the header and the bytes with their emulation bytes, if there is room for them.
fn write_escaped(body: &[u8], out: &mut [u8]) -> Result<usize, Refusal>
    requires { length body.now < 2 ^ 32 }
    ensures result { result ≡ outcome_as (our_header ++ escaped body.now) true out.old }
    ensures buffer { out.new ≡ buffer_as (our_header ++ escaped body.now) true out.old }
{
    let n = emulation::escaped_length(body) + HEADER_BYTES;
    if out.len() < n {
        return Err(Refusal::UnfitOutput);
    }
    out[..HEADER_BYTES].copy_from_slice(&HEADER);
    emulation::insert(body, &mut out[HEADER_BYTES..]);
    Ok(n)
}

// Writes a unit with our message alone: any record and any buffer get an answer.
pub fn write_unit(r: Record, out: &mut [u8]) -> Written
    ensures result { result ≡ write_unit r out.old }
    ensures buffer { out.new ≡ unit_buffer r out.old }
{
    try_write(r, out).into()
}

// The same on the way to the answer: the bytes written, or which refusal. There is no heap: the message takes the room of the longest,
// and only the part that it fills is handed on.
fn try_write(r: Record, out: &mut [u8]) -> Result<usize, Refusal>
    ensures result { result ≡ outcome_as (unit_bytes r) (valid r) out.old }
    ensures buffer { out.new ≡ unit_buffer r out.old }
{
    let mut body = [0u8; messages::BYTES];
    let n = messages::try_write(r, &mut body)?;
    write_escaped(&body[..n], out)
}

// How many bytes of output always suffice: the unit of no valid record is longer.
pub fn most_unit_bytes() -> usize
    ensures { result ≡ sufficient_bytes }
{
    WRITTEN_BYTES
}
