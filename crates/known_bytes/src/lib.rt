// What is known, as 25 bytes: read and written.
#![tactic(auto)]

ghost use Rattle.std.specs.Prelude.{◌≡◌, ◌+◌, ◌≤◌, length, take, drop};
ghost use Rattle.digits.specs.Number.{be_bytes, be_number};
ghost use Rattle.buffer.specs.Bytes.{put};
ghost use Rattle.known_bytes.specs.KnownBytes.{doubt_number, doubt_by, exact_byte, known_bytes, known_of};

use known::Known;
use known_request::Served;
use request::Answer;
use sector_number::SectorNumber;

// How many bytes hold what is known.
pub const KNOWN: usize = 25;

// The greatest number of eight bytes: the one whose successor is written as zeros.
const GREATEST: usize = 18446744073709551615;

// The number of the eight bytes from `at` on.
fn read_number(bytes: &[u8], at: usize) -> usize
    requires { at + 8 ≤ length bytes.now }
    ensures { result ≡ be_number (take 8 (drop at bytes.now)) }
{
    let end = at + 8;
    digits::be_number(&bytes[at..end]) as usize
}

// Writes a number to the eight bytes from `at` on.
fn write_number(bytes: &mut [u8], at: usize, n: usize)
    requires { at + 8 ≤ length bytes.old }
    ensures { bytes.new ≡ put bytes.old at (be_bytes 8 n) }
{
    let end = at + 8;
    digits::put_be(&mut bytes[at..end], n as u64);
}

fn doubt_by(n: usize) -> Option<SectorNumber>
    ensures { result ≡ doubt_by n }
{
    if n == 0 {
        return None;
    }
    Some(SectorNumber(n - 1))
}

// A doubt as eight bytes tell it.
fn doubt_number(doubt: Option<SectorNumber>) -> usize
    ensures { be_bytes 8 result ≡ be_bytes 8 (doubt_number doubt) }
{
    let Some(n) = doubt else {
        return 0;
    };
    if n.0 == GREATEST {
        return 0;
    }
    n.0 + 1
}

fn exact_byte(exact: bool) -> u8
    ensures { result ≡ exact_byte exact }
{
    if exact {
        return 1;
    }
    0
}

// What is known, from its bytes.
pub fn read_known(bytes: &[u8]) -> Known
    requires { length bytes.now ≡ 25 }
    ensures { result ≡ known_of bytes.now }
{
    let used = read_number(bytes, 0);
    let waits = read_number(bytes, 8);
    let doubt = doubt_by(read_number(bytes, 16));
    let exact = bytes[24] == 1;
    Known {
        used: SectorNumber(used),
        waits: SectorNumber(waits),
        doubt: doubt,
        exact: exact,
    }
}

// What is known, to its bytes.
pub fn write_known(bytes: &mut [u8], known: Known)
    requires { length bytes.old ≡ 25 }
    ensures { bytes.new ≡ known_bytes known }
{
    let used = known.used;
    let waits = known.waits;
    let doubt = known.doubt;
    write_number(bytes, 0, used.0);
    write_number(bytes, 8, waits.0);
    write_number(bytes, 16, doubt_number(doubt));
    bytes[24] = exact_byte(known.exact);
}

// Writes what is known after a request to its bytes, and hands back the answer.
pub fn write_served(bytes: &mut [u8], served: Served) -> Answer
    requires { length bytes.old ≡ 25 }
    ensures answered { result ≡ served.answer }
    ensures told { bytes.new ≡ known_bytes served.known }
{
    let after = served.known;
    write_known(bytes, after);
    served.answer
}
