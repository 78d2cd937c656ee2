// Writes why a reading was refused, key=value lines in ASCII, into a lent buffer.
#![tactic(auto, unfolding(text::specs::Text::ascii, crate::specs::Reason::reason))]

ghost use Rattle.std.specs.Prelude.{◌≡◌, length};
ghost use Rattle.text.specs.Page.{HasRoom, TypedOn};
ghost use Rattle.reason.specs.Reason.{range_text, valued, placed, reason, longest, write_reason, reason_buffer};

use cause::{Cause, Kind};
use element::Element;
use output::Written;
use reader::Reading;
use text::Page;

// No reason has more bytes.
pub const BYTES: usize =
    (*b"result=255\noffset=4294967295\nelement=ext_dm_alignment_zero_bit\nvalue=18446744073709551615\nallowed=65535-65535\n").len();

// The lowest and the highest number that are allowed, or none.
fn put_range(page: &mut Page, lowest: u16, highest: u16)
    requires { HasRoom page.old (range_text lowest highest) }
    ensures { TypedOn page.old (range_text lowest highest) page.new }
{
    if lowest <= highest {
        page.put_decimal(lowest as u64);
        page.put_text(b"-");
        page.put_decimal(highest as u64);
    } else {
        page.put_text(b"none");
    }
}

// The value and what is allowed, if they are told.
fn put_valued(page: &mut Page, c: Cause)
    requires { HasRoom page.old (valued c.kind c.value c.lowest c.highest) }
    ensures { TypedOn page.old (valued c.kind c.value c.lowest c.highest) page.new }
{
    match c.kind {
        Kind::Untold => (),
        Kind::Range => {
            page.put_line(b"value=", c.value);
            page.put_text(b"allowed=");
            put_range(page, c.lowest, c.highest);
            page.put_text(b"\n");
        }
        Kind::Other => {
            page.put_line(b"value=", c.value);
            page.put_text(b"allowed=other\n");
        }
    }
}

// Where, which element, and why.
fn put_placed(page: &mut Page, offset: u32, c: Cause)
    requires { HasRoom page.old (placed offset c) }
    ensures { TypedOn page.old (placed offset c) page.new }
{
    page.put_line(b"offset=", offset as u64);
    page.put_text(b"element=");
    name::put_name(page, c.element);
    page.put_text(b"\n");
    put_valued(page, c);
}

// A reading that is accepted, or refused for no element, is its result line only. (Three parts of a Reading: `reason` is a definition over these.)
fn put_reason(page: &mut Page, res: u8, offset: u32, c: Cause)
    requires { HasRoom page.old (reason res offset c) }
    ensures { TypedOn page.old (reason res offset c) page.new }
{
    page.put_line(b"result=", res as u64);
    if c.element != Element::Nothing {
        put_placed(page, offset, c);
    }
}

// Writes why a reading was refused: any reading and any buffer get an answer. The text is made on a page of its own, because its length is
// known only then, and a buffer that is too short must stay as it is.
pub fn write_reason(q: Reading, out: &mut [u8]) -> Written
    ensures result { result ≡ write_reason q out.old }
    ensures buffer { out.new ≡ reason_buffer q out.old }
{
    let mut bytes = [0u8; BYTES];
    let mut page = Page {
        out: &mut bytes,
        at: 0,
    };
    put_reason(&mut page, q.result, q.offset, q.cause);
    let n = page.at;
    output::hand_over(&bytes[..n], out).into()
}

// The longest reason: the limit is that of the definitions.
pub fn most_bytes() -> usize
    ensures { result ≡ length longest }
{
    BYTES
}
