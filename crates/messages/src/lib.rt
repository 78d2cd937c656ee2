// The messages of an SEI unit, in its bytes without emulation bytes (H.265, 7.3.2.4 and 7.3.5): ours is found and read, or written.
#![tactic(auto)]

ghost use Rattle.std.specs.Prelude.{◌≡◌, ◌<◌, ◌^◌, length};
ghost use Rattle.output.specs.Output.{outcome_as};
ghost use Rattle.valid.specs.Valid.{valid};
ghost use Rattle.rbsp.specs.Message.{chain, frame_of, is_end, is_ours, message, messages_in};
ghost use Rattle.messages.specs.Answer.{number_in, number_read, message_at, message_read, first_read, or_ours, ours_in, content_found, read_messages, message_rbsp, write_message, message_buffer};

use output::Written;
use reader::Reading;
use record::Record;
use refusals::Refusal;

// Each of these bytes before the last one counts 255.
const FF_BYTE: u8 = 0xFF;

// user_data_registered_itu_t_t35
const REGISTERED: usize = 4;

// rbsp_trailing_bits() behind whole bytes.
const TRAILING: u8 = 0x80;

// How many bytes always suffice for our message: its type, its size, the largest wrapped payload and the trailing byte.
pub const BYTES: usize = Record::WRAPPED_BYTES + 3;

// A type or a size, and the bytes behind it; none if the bytes end within it.
fn read_number(s: &[u8]) -> Option<(usize, &[u8])>
    requires { length s.now < 2 ^ 32 }
    ensures { number_read result ≡ number_in s.now (chain s.now) }
{
    let n = s.iter().position(|&b| b != FF_BYTE)?;
    Some((255 * n + usize::from(s[n]), &s[n + 1..]))
}

// A message: its type, its content and the bytes behind it; none if the bytes end within it.
fn read_message(s: &[u8]) -> Option<(usize, &[u8], &[u8])>
    requires { length s.now < 2 ^ 32 }
    ensures { message_read result ≡ message_at s.now (frame_of s.now) }
{
    let (kind, sized) = read_number(s)?;
    let (size, left) = read_number(sized)?;
    let (content, behind) = left.split_at_checked(size)?;
    Some((kind, content, behind))
}

// Whether a message is ours. A unit can hold thousands of messages that are shorter than the wrapper: these are not even looked into.
// (A type stays the number that the unit holds: all but ours are alike.)
fn is_ours(kind: usize, content: &[u8]) -> bool
    ensures { result ≡ is_ours (message kind content.now) }
{
    let short = content.len() < wrapper::WRAPPER_BYTES;
    (kind == REGISTERED) & !short && wrapper::has_wrapper(content)
}

// The first of ours, behind one more message.
fn or_ours<'a>(first: Option<&'a [u8]>, kind: usize, content: &'a [u8]) -> Option<&'a [u8]>
    ensures { first_read result ≡ or_ours (first_read first.entry) (message kind content.now) }
{
    match first {
        Some(_) => first,
        None => is_ours(kind, content).then_some(content),
    }
}

// Whether the single byte 80 is all that is left.
fn is_end(s: &[u8]) -> bool
    ensures { result ≡ is_end s.now }
{
    matches!(*s, [TRAILING])
}

// The content of our first message. All messages are read, also behind ours: a later one that is not whole refuses the unit.
// (A loop: one message behind another, left by `?`; a chain would hold its state in a closure.)
fn find_ours(s: &[u8]) -> Result<&[u8], Refusal>
    requires { length s.now < 2 ^ 32 }
    ensures { content_found result ≡ ours_in (messages_in s.now) }
{
    let mut first: Option<&[u8]> = None;
    let mut rest = s;
    loop {
        let (kind, content, behind) = read_message(rest).ok_or(Refusal::BrokenMessages)?;
        first = or_ours(first, kind, content);
        if is_end(behind) {
            return first.ok_or(Refusal::NoneOfOurs);
        }
        rest = behind;
    }
}

// Reads our first message.
pub fn read_messages(s: &[u8]) -> Reading
    requires { length s.now < 2 ^ 32 }
    ensures { result ≡ read_messages s.now }
{
    match find_ours(s) {
        Ok(content) => wrapper::read_wrapped(content),
        Err(refusal) => reader::unplaced(refusal.number()),
    }
}

// Writes our message alone and the trailing byte: any record and any buffer get an answer.
pub fn write_message(r: Record, out: &mut [u8]) -> Written
    ensures result { result ≡ write_message r out.old }
    ensures buffer { out.new ≡ message_buffer r out.old }
{
    try_write(r, out).into()
}

// The same on the way to the answer: the bytes written, or which refusal.
pub fn try_write(r: Record, out: &mut [u8]) -> Result<usize, Refusal>
    ensures result { result ≡ outcome_as (message_rbsp r) (valid r) out.old }
    ensures buffer { out.new ≡ message_buffer r out.old }
{
    if out.len() < 3 {
        return Err(wrapper::without_room(valid::is_valid(r)));
    }
    let end = out.len() - 1;
    let n = wrapper::try_write(r, &mut out[2..end])?;
    out[0] = REGISTERED as u8;
    out[1] = n as u8;
    out[n + 2] = TRAILING;
    Ok(n + 3)
}
