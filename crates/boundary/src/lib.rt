// The functions that other languages call: numbers and bytes only, and none with a `requires`. Each hands on to the crate of its subject.
// A slice is a pointer and a length, an array a pointer. `host/include/skywimple.h` declares them for C.
#![tactic(auto)]

pub mod blocks;
pub mod cards;
pub mod changes;
pub mod copies;
pub mod files;
pub mod hints;
pub mod learning;
pub mod runs;
pub mod surveys;

ghost use Rattle.std.specs.Prelude.{◌≡◌};
ghost use Rattle.std.proofs.Math.Option.{some};
ghost use Rattle.crc32_rule.specs.Crc32.{crc32_of};
ghost use Rattle.sector_log.specs.Parts.{beside};
ghost use Rattle.indexed.specs.Indexed.{step_by};
ghost use Rattle.digest_calls.specs.Digest;
ghost use Rattle.session_numbers.specs.Serve;

// The CRC-32 of s.
#[unsafe(no_mangle)]
pub extern "C" fn skywimple_crc32(s: &[u8]) -> u32
    ensures { result ≡ crc32_of s.now }
{
    crc32::crc32(s)
}

// Writes the SHA-1 of s to the first 20 bytes of out and returns 0, or returns 2 where out is shorter.
#[unsafe(no_mangle)]
pub extern "C" fn skywimple_sha1(s: &[u8], out: &mut [u8]) -> u32
    ensures number { result ≡ Digest.digest_number out.old }
    ensures buffer { out.new ≡ Digest.digest_buffer s.now out.old }
{
    digest_calls::sha1(s, out)
}

// One request, with a date, the log and its waiting part, and an index of any length; an empty one is the scan.
// The result is the number of the refusal, 0 for none, and 256 times the session afterwards.
#[unsafe(no_mangle)]
pub extern "C" fn skywimple_serve(
    session: u8,
    message: &[u8],
    date: &[u8],
    log: &mut [u8],
    waiting: &mut [u8],
    index: &mut [u8],
    reply: &mut [u8],
) -> u32
    ensures { Serve.served result log.new waiting.new reply.new index.new
        ≡ Serve.served_of (step_by (Serve.session_of session) message.now (some date.now) index.old (beside log.old waiting.old) reply.old) }
{
    serve_calls::serve(session, message, date, log, waiting, index, reply)
}
