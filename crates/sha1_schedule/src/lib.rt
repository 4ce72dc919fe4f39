// The message schedule of a block of SHA-1 (FIPS 180-4): its first sixteen words, and each later one in a ring of sixteen.
#![tactic(auto)]

ghost use Rattle.std.specs.Prelude.{◌≡◌, List, ℕ, ◌-◌, ◌<◌, ◌≤◌, length, get_or};
ghost use Rattle.sha1_schedule.specs.Schedule.{word_at, words_of, schedule_of};
ghost use Rattle.sha1_schedule.specs.Ring.{Ring};

// Word i of a block.
fn word_at(b: &[u8], i: usize) -> u32
    requires { (length b.now ≡ 64) × (i < 16) }
    ensures { result ≡ word_at b.now i }
{
    let at = 4 * i;
    word::word(b[at], b[at + 1], b[at + 2], b[at + 3])
}

// The words of a block: the first sixteen of its message schedule.
pub fn words(b: &[u8]) -> [u32; 16]
    requires { length b.now ≡ 64 }
    ensures { result ≡ words_of 16 b.now }
{
    let mut w = [0u32; 16];
    for (i, x) in w.iter_mut().enumerate() {
        *x = word_at(b, i);
    }
    w
}

// Round t's word, from round 16 on, of those 3, 8, 14 and 16 before it, as in section 6.1.3. It takes the place of the
// last of them: in this round the ring holds the latest sixteen words of the standard's schedule.
pub fn latest(w: &mut [u32; 16], t: usize) -> u32
    requires { (16 ≤ t) × (t < 80) }
    ensures { (m : List ℕ) → Ring m (t - 1) w.old → Ring m t w.new × (result ≡ get_or (schedule_of 64 m) t 0) }
{
    let i = t % 16;
    let three = (i + 13) % 16;
    let eight = (i + 8) % 16;
    let fourteen = (i + 2) % 16;
    let x = word::rotate_left(w[three] ^ w[eight] ^ w[fourteen] ^ w[i], 1);
    w[i] = x;
    x
}
