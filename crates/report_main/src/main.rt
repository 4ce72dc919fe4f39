// Prints the report of the log on standard input, of at most 127 sectors.
#![tactic(auto)]

ghost use Rattle.std.specs.Prelude.{◌≡◌, ◌≤◌, length};
ghost use Rattle.buffer.specs.Bytes.{put};
ghost use Rattle.report_main.specs.Printed.{why, printed};

use std::io;
use std::io::Read;

// Writes refusal 3 to the front of d; how many bytes it is.
fn refuse(d: &mut [u8]) -> usize
    requires { 128 ≤ length d.old }
    ensures { (d.new ≡ put d.old 0 why) × (result ≡ 7) }
{
    buffer::copy_at(d, 0, b"why=03\n");
    7
}

// Writes what is printed of a log to the front of d; how many bytes it is.
fn answer(log: &[u8], d: &mut [u8]) -> usize
    requires { 128 ≤ length d.old }
    ensures { (d.new ≡ put d.old 0 (printed log.now)) × (result ≡ length (printed log.now)) }
{
    if 65024 < log.len() {
        return refuse(d);
    }
    let Ok(n) = report::report(log, d) else {
        return refuse(d);
    };
    n
}

// The bytes of the input that are taken are more than the longest log has, so that a longer input is seen.
fn main(rt: HostRuntime) -> io::Result<()> {
    let mut input = Vec::new(rt.alloc());
    rt.stdin().take(65536).read_to_end(&mut input)?;
    let mut text = [0u8; 128];
    let end = answer(&input, &mut text);
    rt.write_all(&text[..end])
}
