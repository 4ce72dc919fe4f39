// One block of SHA-1 (FIPS 180-4): the hash value after a block, by its message schedule and eighty rounds.
#![tactic(auto)]

ghost use Rattle.std.specs.Prelude.{◌≡◌, List, ℕ, ◌+◌, ◌-◌, ◌*◌, ◌%◌, ◌<◌, ◌≤◌, length};
ghost use Rattle.sha1_schedule.specs.Schedule.{schedule_of};
ghost use Rattle.sha1_schedule.specs.Ring.{Ring};
ghost use Rattle.sha1_block.specs.Block.{initial, round_of, rounds_of, add_hash, compress_of};
ghost use Rattle.sha1_block.specs.Rounds.{RoundsDone};

// The five words of a hash value, and of the working variables.
#[derive(Clone, Copy)]
pub struct Hash {
    pub a: u32,
    pub b: u32,
    pub c: u32,
    pub d: u32,
    pub e: u32,
}

// The initial hash value, section 5.3.1.
pub fn first() -> Hash
    ensures { result ≡ initial }
{
    Hash {
        a: 0x67452301,
        b: 0xefcdab89,
        c: 0x98badcfe,
        d: 0x10325476,
        e: 0xc3d2e1f0,
    }
}

// One round of the quarter q.
fn round(s: Hash, q: usize, w: u32) -> Hash
    ensures { result ≡ round_of s q w }
{
    let f = sha1_functions::mixed(q, s.b, s.c, s.d);
    let k = sha1_functions::constant(q);
    let t = word::add(
        word::add(word::add(word::add(word::rotate_left(s.a, 5), f), s.e), k),
        w,
    );
    Hash {
        a: t,
        b: s.a,
        c: word::rotate_left(s.b, 30),
        d: s.c,
        e: s.d,
    }
}

// The first sixteen rounds, with the words of the block.
fn first_rounds(h: Hash, w: &[u32; 16]) -> Hash
    ensures { (m : List ℕ) → Ring m 15 w.now → result ≡ rounds_of 16 (schedule_of 64 m) h }
{
    let mut s = h;
    for x in w {
        s = round(s, 0, *x);
    }
    s
}

// Round t, of the quarter q, from round 16 on.
fn turn(s: Hash, q: usize, w: &mut [u32; 16], t: usize) -> Hash
    requires { (16 ≤ t) × (t < 80) × (20 * q ≤ t) × (t < 20 * q + 20) }
    ensures { (m : List ℕ) (h : Hash) → RoundsDone m h t w.old s → RoundsDone m h (t + 1) w.new result }
{
    let x = sha1_schedule::latest(w, t);
    round(s, q, x)
}

// The rounds from..to of the quarter q: two at a time, which the compiler unrolls.
fn quarter(s: Hash, q: usize, w: &mut [u32; 16], from: usize, to: usize) -> Hash
    requires { (16 ≤ from) × (to ≤ 80) × (from ≤ to) × ((to - from) % 2 ≡ 0) × (20 * q ≤ from) × (to ≤ 20 * q + 20) }
    ensures { (m : List ℕ) (h : Hash) → RoundsDone m h from w.old s → RoundsDone m h to w.new result }
{
    let mut v = s;
    let mut t = from;
    while t < to {
        v = turn(turn(v, q, w, t), q, w, t + 1);
        t += 2;
    }
    v
}

// The eighty rounds, over a ring that starts with the words of the block.
fn rounds(h: Hash, w: &mut [u32; 16]) -> Hash
    ensures { (m : List ℕ) → Ring m 15 w.old → RoundsDone m h 80 w.new result }
{
    let s = first_rounds(h, w);
    let s0 = quarter(s, 0, w, 16, 20);
    let s1 = quarter(s0, 1, w, 20, 40);
    let s2 = quarter(s1, 2, w, 40, 60);
    quarter(s2, 3, w, 60, 80)
}

// The sums that end a block, section 6.1.2.
fn added(s: Hash, h: Hash) -> Hash
    ensures { result ≡ add_hash s h }
{
    Hash {
        a: word::add(s.a, h.a),
        b: word::add(s.b, h.b),
        c: word::add(s.c, h.c),
        d: word::add(s.d, h.d),
        e: word::add(s.e, h.e),
    }
}

// The hash value after one more block.
pub fn compress(h: Hash, b: &[u8]) -> Hash
    requires { length b.now ≡ 64 }
    ensures { result ≡ compress_of h b.now }
{
    let mut w = sha1_schedule::words(b);
    added(rounds(h, &mut w), h)
}
