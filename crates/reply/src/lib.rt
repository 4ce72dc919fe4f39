// Replies put together.
#![tactic(auto)]

ghost use Rattle.std.specs.Prelude.{◌≡◌, [], ◌∷◌, ◌++◌, ◌+◌, ◌≤◌, length};
ghost use Rattle.buffer.specs.Bytes.{put};
ghost use Rattle.digits.specs.Number.{be_bytes};
ghost use Rattle.message.specs.Message.{head_length};
ghost use Rattle.message.specs.Reply.{reply, answered, why, place, error_reply, hello_reply};

use message::{ERROR_REPLY, HEAD, HELLO_REPLY, TAG, TYPE};
use refusal::Refusal;
use sector_number::SectorNumber;

// Writes the head of a reply with `count` bytes of body: size, type, tag.
pub fn write_head(buffer: &mut [u8], kind: u8, tag: u8, count: usize)
    requires { (head_length ≤ length buffer.old) × (count ≤ 65533) }
    ensures { buffer.new ≡ put buffer.old 0 (be_bytes 2 (2 + count) ++ (kind ∷ tag ∷ [])) }
{
    digits::put_be(&mut buffer[..TYPE], (2 + count) as u64);
    buffer[TYPE] = kind;
    buffer[TAG] = tag;
}

// Writes a reply to the front of the buffer.
pub fn write_reply(buffer: &mut [u8], kind: u8, tag: u8, body: &[u8])
    requires { (head_length + length body.now ≤ length buffer.old) × (length body.now ≤ 65533) }
    ensures { buffer.new ≡ answered buffer.old (reply kind tag body.now) }
{
    write_head(buffer, kind, tag, body.len());
    buffer::copy_at(buffer, HEAD, body);
}

// Writes the reply to a hello, whose text is empty and whose two bytes are 0.
pub fn write_hello(buffer: &mut [u8], tag: u8)
    requires { 8 ≤ length buffer.old }
    ensures { buffer.new ≡ answered buffer.old (hello_reply tag) }
{
    let body = [0u8; 4];
    write_reply(buffer, HELLO_REPLY, tag, &body);
}

// The body of an error reply that tells of a doubtful sector: the length of its text, and the text, which ends with the sector.
fn doubt_text(n: u8, sector: SectorNumber) -> [u8; 20]
    ensures { result ≡ 0 ∷ 18 ∷ (why n ++ place (Some sector)) }
{
    let tens = b'0' + n / 10;
    let ones = b'0' + n % 10;
    let mut body = [
        0, 18, b'w', b'h', b'y', b'=', tens, ones, b' ', b'a', b't', b'=', 0, 0, 0, 0, 0, 0, 0, 0,
    ];
    hexadecimal::put_hex(&mut body[12..20], sector.0 as u64);
    body
}

// Writes an error reply, whose text is why= and the number of the refusal in two digits, and for 12 at= and the doubtful sector.
pub fn write_error(buffer: &mut [u8], tag: u8, why: Refusal)
    requires { 24 ≤ length buffer.old }
    ensures { buffer.new ≡ answered buffer.old (error_reply tag why) }
{
    let n = refusal::number(why);
    let doubt = refusal::doubt_of(why);
    if let Some(sector) = doubt {
        let body = doubt_text(n, sector);
        write_reply(buffer, ERROR_REPLY, tag, &body);
        return;
    }
    let body = [0, 6, b'w', b'h', b'y', b'=', b'0' + n / 10, b'0' + n % 10];
    write_reply(buffer, ERROR_REPLY, tag, &body);
}
