// CRC-32 of known messages, in hexadecimal, one to a line. What it must write was computed by another program, zlib.
#![tactic(auto)]

ghost use Rattle.std.specs.Prelude.{◌≡◌, length};

use std::io;

fn show(rt: &impl Print, checksum: u32) -> io::Result<()> {
    println!(rt; "{checksum:08x}")
}

// The bytes 0 to 255, over and over.
fn cycle() -> [u8; 8192]
    ensures { 8192 ≡ length result }
{
    let mut bytes = [0u8; 8192];
    for (i, b) in bytes.iter_mut().enumerate() {
        *b = (i % 256) as u8;
    }
    bytes
}

fn main(rt: HostRuntime) -> io::Result<()> {
    show(&rt, crc32::crc32(b"123456789"))?;
    show(&rt, crc32::crc32(b""))?;
    show(
        &rt,
        crc32::crc32(b"The quick brown fox jumps over the lazy dog"),
    )?;
    let zeros = [0u8; 499];
    show(&rt, crc32::crc32(&zeros))?;
    let ones = [255u8; 499];
    show(&rt, crc32::crc32(&ones))?;
    let bytes = cycle();
    show(&rt, crc32::crc32(&bytes))
}
