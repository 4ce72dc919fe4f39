// Requests taken apart, and replies as a definition.
#![tactic(auto)]

ghost use Rattle.std.specs.Prelude.{◌≡◌, [], ◌∷◌, ◌≤◌, length};
ghost use Rattle.buffer.specs.Bytes.{same};
ghost use Rattle.message.specs.Message.{head_length, framed, tag_of, exactly, score_of, read_of, data_of, write_of, request_of, version_of};

pub use field::HEAD;

// Where the type and the tag of a message stand, behind its size.
pub const TYPE: usize = 2;

pub const TAG: usize = 3;

// The types of the replies.
pub const ERROR_REPLY: u8 = 1;

pub const PING_REPLY: u8 = 3;

pub const HELLO_REPLY: u8 = 5;

pub const READ_REPLY: u8 = 13;

pub const WRITE_REPLY: u8 = 15;

pub const SYNC_REPLY: u8 = 17;

// What a message asks. The version of a hello, the score of a read and the data of a write stay where they are in the message.
#[derive(Clone, Copy)]
pub enum Request {
    Ping,
    Hello,
    Goodbye,
    Read { kind: u8, count: usize },
    Write { kind: u8 },
    Sync,
    // A type that no request has.
    Unknown,
    // An ill-formed body.
    Ill,
}

// Whether a message has its head, and its size is the count of bytes after it.
pub fn is_framed(m: &[u8]) -> bool
    ensures { result ≡ framed m.now }
{
    if m.len() < HEAD {
        return false;
    }
    let size = digits::be_number(&m[..TYPE]);
    size == (m.len() - 2) as u64
}

// The tag of a message that has its head.
pub fn tag_of(m: &[u8]) -> u8
    requires { head_length ≤ length m.now }
    ensures { result ≡ tag_of m.now }
{
    m[TAG]
}

// The score of a read, where it is in the message.
pub fn score_of(m: &[u8]) -> &[u8]
    requires { 24 ≤ length m.now }
    ensures { result.now ≡ score_of m.now }
{
    &m[HEAD..24]
}

// The data of a write, where it is in the message.
pub fn data_of(m: &[u8]) -> &[u8]
    requires { 8 ≤ length m.now }
    ensures { result.now ≡ data_of m.now }
{
    &m[8..]
}

// The request q, if the message ends where its body does.
fn exactly(m: &[u8], end: Option<usize>, q: Request) -> Request
    ensures { result ≡ exactly m.now end q }
{
    let Some(at) = end else {
        return Request::Ill;
    };
    if at == m.len() { q } else { Request::Ill }
}

// A read: score, type, pad, count.
fn read_of(m: &[u8]) -> Request
    ensures { result ≡ read_of m.now }
{
    if m.len() != 28 {
        return Request::Ill;
    }
    if !buffer::is_zero(&m[25..26]) {
        return Request::Ill;
    }
    Request::Read {
        kind: m[24],
        count: digits::be_number(&m[26..28]) as usize,
    }
}

// A write: type, pad, data.
fn write_of(m: &[u8]) -> Request
    ensures { result ≡ write_of m.now }
{
    if m.len() < 8 {
        return Request::Ill;
    }
    if !buffer::is_zero(&m[5..8]) {
        return Request::Ill;
    }
    Request::Write { kind: m[HEAD] }
}

// What a message that has its head asks.
pub fn parse(m: &[u8]) -> Request
    requires { head_length ≤ length m.now }
    ensures { result ≡ request_of m.now }
{
    let kind = m[TYPE];
    match kind {
        2 => exactly(m, Some(HEAD), Request::Ping),
        4 => exactly(m, field::hello_end(m), Request::Hello),
        6 => exactly(m, Some(HEAD), Request::Goodbye),
        12 => read_of(m),
        14 => write_of(m),
        16 => exactly(m, Some(HEAD), Request::Sync),
        _ => Request::Unknown,
    }
}

// Whether the version of a hello is "02". Any message may be asked.
pub fn is_version(m: &[u8]) -> bool
    ensures { result ≡ same (version_of m.now) (48 ∷ 50 ∷ []) }
{
    if m.len() < 6 {
        return false;
    }
    let n = digits::be_number(&m[HEAD..6]) as usize;
    let end = if m.len() - 6 < n { m.len() } else { 6 + n };
    buffer::equal(&m[6..end], b"02")
}
