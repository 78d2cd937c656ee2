// Reads wrapped data from standard input, of a longer input the first 4,096 bytes, and prints why it is refused.
#![tactic(auto)]

use arrayvec::ArrayVec;
use std::io;
use std::io::{Read, Write};

// How much of the input is read.
const MOST_BYTES: usize = 4096;

// Writes why what the reader gives is refused, as `show` writes a listing.
fn explain<R: Read + Drop, W: Write>(reader: R, writer: &mut W) -> io::Result<()> {
    let mut input: ArrayVec<u8, MOST_BYTES> = ArrayVec::new();
    io::copy(&mut reader.take(MOST_BYTES as u64), &mut input)?;
    let reading = wrapper::read_wrapped(input.as_slice());
    let mut text = [0u8; reason::BYTES];
    let written = reason::write_reason(reading, &mut text);
    writer.write_all(&text[..written.bytes])
}

fn main(rt: HostRuntime) -> io::Result<()> {
    explain(rt.stdin(), &mut rt.stdout())
}
