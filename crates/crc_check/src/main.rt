// Prints the checksum of three runs of nine bytes, one to a line: the published check value of CRC-8, a header, and zeros.
#![tactic(auto)]

use std::io;

fn show(rt: &impl Print, s: &[u8]) -> io::Result<()> {
    println!(rt; "{}", crc::checksum(s))
}

fn main(rt: HostRuntime) -> io::Result<()> {
    show(&rt, b"123456789")?;
    show(&rt, &[0, 0, 48, 0, 0, 0, 0, 0, 0])?;
    show(&rt, &[0, 0, 0, 0, 0, 0, 0, 0, 0])
}
