// Reads every payload that document 01 gives, the ms_weight examples among them, bare and behind the wrapper, and prints for each its
// name and its listing, and of a refused one where it is refused. Two of them, 58 50 and 5A 81 80, have another outcome since request
// b, and 00 00 since request d, whose 00 00 00 00 stands beside it.
#![tactic(auto)]

use reader::Reading;
use std::io;
use std::io::Write;

// Where a payload is refused, if it is: at which bit of the data, or at which byte of the wrapper.
fn place<W: Write>(out: &mut W, reading: Reading) -> io::Result<()> {
    if reading.result == 0 {
        return Ok(());
    }
    let unit = if reading.in_wrapper { "byte" } else { "bit" };
    let offset = reading.offset;
    writeln!(out, "{unit}={offset}")
}

fn outcome<W: Write>(out: &mut W, name: &[u8], form: &[u8], reading: Reading) -> io::Result<()> {
    out.write_all(name)?;
    out.write_all(form)?;
    let mut text = [0u8; listing::BYTES];
    let listed = listing::write_listing(reading, &mut text);
    out.write_all(&text[..listed.bytes])?;
    place(out, reading)
}

fn wrapped<W: Write>(out: &mut W, name: &[u8], input: &[u8]) -> io::Result<()> {
    outcome(out, name, b", wrapped\n", wrapper::read_wrapped(input))
}

// Data behind the eight wrapper bytes: read without them, and with them.
fn both<W: Write>(out: &mut W, name: &[u8], input: &[u8]) -> io::Result<()> {
    if 8 <= input.len() {
        outcome(out, name, b", bare\n", reader::read_data(&input[8..]))?;
    }
    wrapped(out, name, input)
}

fn starred<W: Write>(out: &mut W) -> io::Result<()> {
    both(out, b"no bytes", b"\xB5\x00\x31\x47\x41\x39\x34\x09")?;
    both(out, b"00", b"\xB5\x00\x31\x47\x41\x39\x34\x09\x00")?;
    both(out, b"00 00", b"\xB5\x00\x31\x47\x41\x39\x34\x09\x00\x00")?;
    both(
        out,
        b"00 00 00 00",
        b"\xB5\x00\x31\x47\x41\x39\x34\x09\x00\x00\x00\x00",
    )?;
    both(out, b"50", b"\xB5\x00\x31\x47\x41\x39\x34\x09\x50")?;
    both(out, b"51", b"\xB5\x00\x31\x47\x41\x39\x34\x09\x51")?;
    both(out, b"5C", b"\xB5\x00\x31\x47\x41\x39\x34\x09\x5C")?;
    both(
        out,
        b"level 1",
        b"\xB5\x00\x31\x47\x41\x39\x34\x09\x5A\x30\x08\x00\x60\x02\x00\x00",
    )?;
    both(
        out,
        b"level 1, last byte 01",
        b"\xB5\x00\x31\x47\x41\x39\x34\x09\x5A\x30\x08\x00\x60\x02\x00\x01",
    )?;
    both(
        out,
        b"level 1, one more byte",
        b"\xB5\x00\x31\x47\x41\x39\x34\x09\x5A\x30\x08\x00\x60\x02\x00\x00\x00",
    )?;
    both(
        out,
        b"level 1, not in order",
        b"\xB5\x00\x31\x47\x41\x39\x34\x09\x5A\x30\x08\x00\x20\x06\x00\x00",
    )?;
    both(
        out,
        b"level 5",
        b"\xB5\x00\x31\x47\x41\x39\x34\x09\x5A\x10\x0A\x00\x00\x00\x04\x50\x22\x80",
    )?;
    both(out, b"58 50", b"\xB5\x00\x31\x47\x41\x39\x34\x09\x58\x50")?;
    both(
        out,
        b"5A 81 80",
        b"\xB5\x00\x31\x47\x41\x39\x34\x09\x5A\x81\x80",
    )
}

fn others<W: Write>(out: &mut W) -> io::Result<()> {
    both(
        out,
        b"level 1, first 7 bytes",
        b"\xB5\x00\x31\x47\x41\x39\x34\x09\x5A\x30\x08\x00\x60\x02\x00",
    )?;
    both(
        out,
        b"level 1, all three 0",
        b"\xB5\x00\x31\x47\x41\x39\x34\x09\x5A\x30\x08\x00\x00\x00\x00\x00",
    )?;
    both(out, b"30", b"\xB5\x00\x31\x47\x41\x39\x34\x09\x30")?;
    both(out, b"48", b"\xB5\x00\x31\x47\x41\x39\x34\x09\x48")?;
    both(out, b"58 4C", b"\xB5\x00\x31\x47\x41\x39\x34\x09\x58\x4C")?;
    both(
        out,
        b"5A 80 80",
        b"\xB5\x00\x31\x47\x41\x39\x34\x09\x5A\x80\x80",
    )?;
    both(
        out,
        b"ms_weight thirteen ones",
        b"\xB5\x00\x31\x47\x41\x39\x34\x09\x5A\x18\x04\x00\x00\x00\x00\x00\x00\x00\x00\x01\xFF\xF0",
    )?;
    both(
        out,
        b"ms_weight a one and twelve zeros",
        b"\xB5\x00\x31\x47\x41\x39\x34\x09\x5A\x18\x04\x00\x00\x00\x00\x00\x00\x00\x00\x01\x00\x00",
    )?;
    both(
        out,
        b"ms_weight a zero and twelve ones",
        b"\xB5\x00\x31\x47\x41\x39\x34\x09\x5A\x18\x04\x00\x00\x00\x00\x00\x00\x00\x00\x00\xFF\xF0",
    )
}

// What the wrapper itself gets wrong.
fn wrappers<W: Write>(out: &mut W) -> io::Result<()> {
    wrapped(out, b"B5 00 3C", b"\xB5\x00\x3C")?;
    wrapped(out, b"B5 00", b"\xB5\x00")?;
    wrapped(
        out,
        b"last wrapper byte 08",
        b"\xB5\x00\x31\x47\x41\x39\x34\x08\x50",
    )
}

fn main(rt: HostRuntime) -> io::Result<()> {
    let out = &mut rt.stdout();
    starred(out)?;
    others(out)?;
    wrappers(out)
}
