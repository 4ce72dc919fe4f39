// The index, a lent buffer of any bytes: an entry made in its bucket, and the buckets cleared.
#![tactic(auto)]

ghost use Rattle.std.specs.Prelude.{◌≡◌, ◌+◌, ◌-◌, ◌*◌, ◌≤◌, length, take};
ghost use Rattle.buffer.specs.Bytes.{same};
ghost use Rattle.index.specs.Index.{bucket_of, place_at, named, sector_at, entry_bytes, first_free, entered, cleared};

use sector_number::SectorNumber;

// The bytes of an entry.
pub const ENTRY: usize = 25;

// The bytes of 256 entries, one for each bucket.
pub const LAYER: usize = 6400;

// The places of a bucket: from one on, up to another.
#[derive(Clone, Copy)]
pub struct Bucket {
    pub from: usize,
    pub to: usize,
}

// The bucket of a score.
pub fn bucket_of(index: &[u8], score: &[u8]) -> Bucket
    requires { length score.now ≡ 20 }
    ensures places { result ≡ bucket_of index.now score.now }
    ensures within { (result.from ≤ result.to) × (25 * result.to ≤ length index.now) }
{
    let count = index.len() / LAYER;
    let from = count * (score[0] as usize);
    let to = from + count;
    Bucket { from, to }
}

// Whether the entry at a place names a score and type.
pub fn names(index: &[u8], p: usize, kind: u8, score: &[u8]) -> bool
    requires { (25 * p + 25 ≤ length index.now) × (length score.now ≡ 20) }
    ensures { result ≡ same (take 21 (place_at index.now p)) (named score.now kind) }
{
    let at = ENTRY * p;
    let end = at + 20;
    if index[end] != kind {
        return false;
    }
    buffer::equal(&index[at..end], score)
}

// The sector that the entry at a place names.
pub fn sector_at(index: &[u8], p: usize) -> SectorNumber
    requires { 25 * p + 25 ≤ length index.now }
    ensures { result.0 ≡ sector_at index.now p }
{
    let from = ENTRY * p + 21;
    let to = from + 4;
    SectorNumber(digits::be_number(&index[from..to]) as usize)
}

// The first free place from place `from` on, and `to` if none before it is.
fn first_free(index: &[u8], from: usize, to: usize) -> usize
    requires { (from ≤ to) × (25 * to ≤ length index.now) }
    ensures { result ≡ first_free index.now (to - from) from }
{
    for p in from..to {
        let at = ENTRY * p;
        let end = at + ENTRY;
        if buffer::is_zero(&index[at..end]) {
            return p;
        }
    }
    to
}

// The whole of a place becomes an entry.
fn write_entry(place: &mut [u8], score: &[u8], kind: u8, first: SectorNumber)
    requires { (length place.old ≡ 25) × (length score.now ≡ 20) }
    ensures { place.new ≡ entry_bytes score.now kind first.0 }
{
    buffer::copy_at(place, 0, score);
    place[20] = kind;
    digits::put_be(&mut place[21..25], first.0 as u64);
}

// Enters a block into the first free place of its bucket; without one the index stays as it is.
pub fn enter(index: &mut [u8], score: &[u8], kind: u8, first: SectorNumber)
    requires { length score.now ≡ 20 }
    ensures { index.new ≡ entered index.old score.now kind first.0 }
{
    let b = bucket_of(index, score);
    let p = first_free(index, b.from, b.to);
    if p < b.to {
        let at = ENTRY * p;
        let end = at + ENTRY;
        write_entry(&mut index[at..end], score, kind, first);
    }
}

// Makes every place free; the bytes left over at the end stay.
pub fn clear(index: &mut [u8])
    ensures { index.new ≡ cleared index.old }
{
    let end = LAYER * (index.len() / LAYER);
    buffer::clear(&mut index[0..end]);
}
