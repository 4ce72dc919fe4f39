// Whether the bucket of a score has a block's entry, by scan of its places.
#![tactic(auto)]

ghost use Rattle.std.specs.Prelude.{◌≡◌, length};
ghost use Rattle.known.specs.Known.{listed};

use sector_number::SectorNumber;

// Whether the bucket of a score has an entry with this score, type and sector.
pub fn lists(index: &[u8], score: &[u8], kind: u8, first: SectorNumber) -> bool
    requires { length score.now ≡ 20 }
    ensures { result ≡ listed index.now score.now kind first.0 }
{
    let b = index::bucket_of(index, score);
    let to = b.to;
    for p in b.from..to {
        if index::names(index, p, kind, score) {
            if index::sector_at(index, p).0 == first.0 {
                return true;
            }
        }
    }
    false
}
