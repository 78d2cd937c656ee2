// Reads two payloads and prints of each the maximum of the scene's PQ range, or the number of its refusal.
#![tactic(auto)]

use record::{Block, Record};
use std::io;

// The maximum of the scene's PQ range, where the record's first block tells it, else 0.
fn brightest(record: Record) -> u16 {
    match record.places[0].block {
        Block::Level1 { max_pq, .. } => max_pq,
        _ => 0,
    }
}

fn tell(rt: &impl Print, input: &[u8]) -> io::Result<()> {
    let reading = wrapper::read_wrapped(input);
    if reading.result == 0 {
        let max_pq = brightest(reading.record);
        println!(rt; "brightest: {max_pq}")
    } else {
        let number = reading.result;
        println!(rt; "refused: {number}")
    }
}

fn main(rt: HostRuntime) -> io::Result<()> {
    tell(
        &rt,
        b"\xB5\x00\x31\x47\x41\x39\x34\x09\x5A\x30\x08\x00\x60\x02\x00\x00",
    )?;
    tell(
        &rt,
        b"\xB5\x00\x31\x47\x41\x39\x34\x09\x5A\x30\x08\x00\x20\x06\x00\x00",
    )
}
