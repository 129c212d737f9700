// Judges ten-byte headers in a switch of 24 queues and prints a line for each: the refusal's number, or 0 and then destination, source,
// queue, length, poisoned, timestamp and transaction. Then writes and reads headers of other forms: for each a line with the refusal's
// number, or 0 and the header's bytes, and one with the refusal's number, or 0 and the label.
#![tactic(auto)]

use codec::Label;
use header::HeaderFields;
use ledger::{Load, Refusal};
use std::io;

fn refusal(rt: &impl Print, r: Refusal) -> io::Result<()> {
    println!(rt; "{}", r.number())
}

fn show_fields(rt: &impl Print, f: HeaderFields) -> io::Result<()> {
    print!(rt; "0 {} {} {} {}", f.dest, f.source, f.queue, f.len)?;
    println!(rt; " {} {} {}", f.poisoned, f.stamp, f.transaction)
}

fn show(rt: &impl Print, h: &[u8], port: u32) -> io::Result<()> {
    let form = forms::form_of(0, 4, 24);
    match header::judge(Load::Header, h, form, 24, port) {
        Ok(f) => show_fields(rt, f),
        Err(r) => refusal(rt, r),
    }
}

fn show_label(rt: &impl Print, v: Label) -> io::Result<()> {
    print!(rt; "0 {} {} {} {}", v.destination, v.source, v.queue, v.length)?;
    println!(rt;
        " {} {} {} {}",
        v.poisoned, v.timestamp, v.credit, v.transaction
    )
}

fn show_read(rt: &impl Print, edition: u32, ports: u32, queues: u32, h: &[u8]) -> io::Result<()> {
    match codec::read(edition, ports, queues, h) {
        Ok(v) => show_label(rt, v),
        Err(r) => refusal(rt, r),
    }
}

fn show_bytes(rt: &impl Print, b: &[u8]) -> io::Result<()> {
    print!(rt; "0")?;
    for x in b {
        print!(rt; " {x}")?;
    }
    println!(rt;)
}

fn show_written(
    rt: &impl Print,
    edition: u32,
    ports: u32,
    queues: u32,
    v: Label,
) -> io::Result<()> {
    match codec::write(edition, ports, queues, v) {
        Ok(w) => show_bytes(rt, &w.bytes[..w.size as usize]),
        Err(r) => refusal(rt, r),
    }
}

// A label with these ports, queue and length; what follows them is the same in each.
fn label(destination: u32, source: u32, queue: u32, length: u32) -> Label {
    Label {
        destination,
        source,
        queue,
        length,
        poisoned: 1,
        timestamp: 16909060,
        credit: 258,
        transaction: 200,
    }
}

fn judged(rt: &impl Print) -> io::Result<()> {
    show(rt, &[0, 0, 48, 0, 0, 0, 0, 0, 0, 114], 0)?;
    show(rt, &[0, 0, 48, 0, 0, 0, 0, 0, 0, 115], 0)?;
    show(rt, &[0, 0, 0, 0, 0, 0, 0, 0, 0, 0], 0)?;
    show(rt, &[0, 0, 0, 0, 0, 0, 0, 0, 0, 0], 1)?;
    show(rt, &[0, 0, 48, 0, 0, 0, 0, 0, 0], 0)?;
    let mut h = [107, 255, 252, 1, 2, 3, 4, 5, 200, 0];
    h[9] = crc::checksum(&h[..9]);
    show(rt, &h, 2)?;
    // Queues 24 and 31; then the reserved bit, alone and beside a wrong source.
    show(rt, &[12, 0, 48, 0, 0, 0, 0, 0, 0, 80], 0)?;
    show(rt, &[15, 128, 48, 0, 0, 0, 0, 0, 0, 100], 0)?;
    show(rt, &[0, 0, 49, 0, 0, 0, 0, 0, 0, 173], 0)?;
    show(rt, &[0, 0, 49, 0, 0, 0, 0, 0, 0, 173], 1)
}

// 4/24, 8/16, 16/32, 32/64, and 2/2, where a port and a queue are a bit each.
fn wide(rt: &impl Print) -> io::Result<()> {
    show_written(rt, 1, 4, 24, label(3, 1, 23, 13))?;
    show_read(rt, 1, 4, 24, &[219, 128, 54, 1, 2, 3, 4, 1, 2, 200, 234])?;
    show_written(rt, 1, 8, 16, label(7, 5, 15, 100))?;
    show_read(rt, 1, 8, 16, &[247, 192, 201, 1, 2, 3, 4, 1, 2, 200, 230])?;
    show_written(rt, 1, 16, 32, label(15, 9, 31, 14))?;
    show_read(
        rt,
        1,
        16,
        32,
        &[249, 248, 3, 160, 1, 2, 3, 4, 1, 2, 200, 173],
    )?;
    show_written(rt, 1, 32, 64, label(31, 17, 63, 8191))?;
    show_read(
        rt,
        1,
        32,
        64,
        &[252, 127, 255, 252, 1, 2, 3, 4, 1, 2, 200, 230],
    )?;
    show_written(rt, 1, 2, 2, label(1, 0, 1, 13))?;
    show_read(rt, 1, 2, 2, &[160, 13, 128, 1, 2, 3, 4, 1, 2, 200, 15])
}

// Counts that no switch has; a queue that this one has not; and a header of the other edition.
fn refused(rt: &impl Print) -> io::Result<()> {
    show_written(rt, 1, 33, 64, label(0, 0, 0, 14))?;
    show_written(rt, 1, 4, 24, label(0, 0, 24, 13))?;
    show_written(rt, 0, 4, 24, label(0, 0, 0, 12))?;
    show_read(rt, 0, 8, 16, &[0, 0, 48, 0, 0, 0, 0, 0, 0, 114])?;
    show_read(rt, 1, 4, 24, &[0, 0, 48, 0, 0, 0, 0, 0, 0, 114])?;
    show_read(rt, 0, 4, 24, &[0, 0, 48, 0, 0, 0, 0, 0, 0, 114])
}

fn main(rt: HostRuntime) -> io::Result<()> {
    judged(&rt)?;
    wide(&rt)?;
    refused(&rt)
}
