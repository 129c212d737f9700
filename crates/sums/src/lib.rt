// The checksum both ways, as C functions, for benchmarks alone: by the library's table, and bit by bit, as its definition has it.
#![tactic(auto)]

ghost use Rattle.std.specs.Prelude.{◌≡◌};
ghost use Rattle.crc.specs.Crc.{crc_bit, crc_byte, crc8};

// One bit. Where a one falls out at the top, the polynomial's highest bit goes with it, and 7 is left of 0x107.
#[tactic(auto, using(crc::proofs::Crc::bit_low, crc::proofs::Crc::bit_high))]
fn bit(c: u8) -> u8
    ensures { result ≡ crc_bit c }
{
    if c < 128 { c * 2 } else { ((c - 128) * 2) ^ 7 }
}

// One byte: it is joined to the sum so far, and its eight bits are shifted out.
#[tactic(auto, using(crc::proofs::Crc::byte_starts, crc::proofs::Crc::bits_fall, crc::proofs::Crc::bits_none))]
fn step(c: u8, b: u8) -> u8
    ensures { result ≡ crc_byte c b }
{
    let mut x = c ^ b;
    for _ in 0..8u8 {
        x = bit(x);
    }
    x
}

// All bytes.
#[tactic(auto, using(crc::proofs::Crc::from_next, crc::proofs::Crc::from_end), unfolding(crc::specs::Crc::crc8))]
fn bitwise(s: &[u8]) -> u8
    ensures { result ≡ crc8 s.now }
{
    let mut c = 0;
    for b in s {
        c = step(c, *b);
    }
    c
}

// Both answer a whole u32: what a register holds above a byte isn't told, and some callers take it for zero.
#[unsafe(no_mangle)]
pub extern "C" fn sum_by_bits(s: &[u8]) -> u32
    ensures { result ≡ crc8 s.now }
{
    u32::from(bitwise(s))
}

#[unsafe(no_mangle)]
pub extern "C" fn sum_by_table(s: &[u8]) -> u32
    ensures { result ≡ crc8 s.now }
{
    u32::from(crc::checksum(s))
}
