// Cutting zeros off blocks, and padding blocks with them: zero bytes, or for pointer types zero scores.
#![tactic(auto)]

ghost use Rattle.std.specs.Prelude.{◌≡◌, true, ◌/◌, length};
ghost use Rattle.kind.specs.Kind.{zero_score};
ghost use Rattle.cut.specs.Cut.{zero_byte, unit_of, repeat, cut_length, whole_units, cut_of};
ghost use Rattle.cut.specs.Pad.{pad_allowed, after_pad, pad_of};

use refusal::Refusal;

// Whether n bytes are whole units of a block type.
fn is_whole(kind: u8, n: usize) -> bool
    ensures { result ≡ whole_units (unit_of kind) n }
{
    !kind::is_pointer(kind) || n % 20 == 0
}

// The length of b without the zero bytes at its end.
fn cut_bytes(b: &[u8]) -> usize
    ensures { result ≡ cut_length zero_byte b.now }
{
    let mut n = b.len();
    while 0 < n {
        let at = n - 1;
        if b[at] != 0 {
            return n;
        }
        n = at;
    }
    n
}

// The length of b, whole scores, without the zero scores at its end.
fn cut_scores(b: &[u8]) -> usize
    requires { whole_units zero_score (length b.now) ≡ true }
    ensures { result ≡ cut_length zero_score b.now }
{
    let mut n = b.len();
    while 20 <= n {
        let at = n - 20;
        if !kind::is_zero_score(&b[at..n]) {
            return n;
        }
        n = at;
    }
    n
}

// The length of a block once it is cut.
pub fn cut(kind: u8, block: &[u8]) -> Result<usize, Refusal>
    ensures { result ≡ cut_of kind block.now }
{
    let lawful = kind::is_lawful(kind);
    let whole_units = is_whole(kind, block.len());
    if !lawful {
        return Err(Refusal::BlockType);
    }
    if !whole_units {
        return Err(Refusal::Pad);
    }
    if kind::is_pointer(kind) {
        return Ok(cut_scores(block));
    }
    Ok(cut_bytes(block))
}

// The whole of d, whole scores, becomes zero scores.
fn fill_scores(d: &mut [u8])
    requires { whole_units zero_score (length d.old) ≡ true }
    ensures { d.new ≡ repeat zero_score (length d.old / length zero_score) }
{
    let z = kind::zero_score();
    let mut at: usize = 0;
    while at < d.len() {
        buffer::copy_at(d, at, &z);
        at += 20;
    }
}

// The whole of d becomes units of a block type.
fn fill(kind: u8, d: &mut [u8])
    requires { whole_units (unit_of kind) (length d.old) ≡ true }
    ensures { d.new ≡ repeat (unit_of kind) (length d.old / length (unit_of kind)) }
{
    if !kind::is_pointer(kind) {
        buffer::clear(d);
        return;
    }
    fill_scores(d);
}

// Whether a block of `len` bytes at the front of a buffer of `size` can be padded to the target.
fn may_pad(kind: u8, size: usize, len: usize, target: usize) -> bool
    ensures { result ≡ pad_allowed (unit_of kind) size len target }
{
    if target < len {
        return false;
    }
    if size < target {
        return false;
    }
    if !is_whole(kind, len) {
        return false;
    }
    is_whole(kind, target)
}

// Pads the block of `len` bytes at the front of the buffer to the target.
pub fn pad(kind: u8, buffer: &mut [u8], len: usize, target: usize) -> Result<(), Refusal>
    ensures { after_pad result buffer.new ≡ pad_of kind buffer.old len target }
{
    let size = buffer.len();
    let lawful_type = kind::is_lawful(kind);
    let allowed = may_pad(kind, size, len, target);
    if !lawful_type {
        return Err(Refusal::BlockType);
    }
    if !allowed {
        return Err(Refusal::Pad);
    }
    fill(kind, &mut buffer[len..target]);
    Ok(())
}
