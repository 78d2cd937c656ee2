// Reads an SEI unit from standard input, of a longer input the first 4,097 bytes, and prints its listing.
#![tactic(auto)]

use arrayvec::ArrayVec;
use std::io;
use std::io::{Read, Write};

// How much of the input is read: one byte more than a unit may have.
const MOST_BYTES: usize = sei::MOST_BYTES + 1;

// Writes the listing of what the reader gives, as `show` does of another input.
fn list<R: Read + Drop, W: Write>(reader: R, writer: &mut W) -> io::Result<()> {
    let mut input: ArrayVec<u8, MOST_BYTES> = ArrayVec::new();
    io::copy(&mut reader.take(MOST_BYTES as u64), &mut input)?;
    let reading = sei::read_unit(input.as_slice());
    let mut text = [0u8; listing::BYTES];
    let listed = listing::write_listing(reading, &mut text);
    writer.write_all(&text[..listed.bytes])
}

fn main(rt: HostRuntime) -> io::Result<()> {
    list(rt.stdin(), &mut rt.stdout())
}
