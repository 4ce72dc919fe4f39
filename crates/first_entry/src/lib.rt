// The first entry of a bucket that names a type and score.
#![tactic(auto)]

ghost use Rattle.std.specs.Prelude.{◌≡◌, length};
ghost use Rattle.hint.specs.Tells.{tells};

use sector_number::SectorNumber;

// Whether the first entry of the bucket that names a type and score tells sector n.
pub fn tells_first(index: &[u8], kind: u8, score: &[u8], n: SectorNumber) -> bool
    requires { length score.now ≡ 20 }
    ensures { result ≡ tells index.now kind score.now n.0 }
{
    let b = index::bucket_of(index, score);
    let to = b.to;
    for p in b.from..to {
        if index::names(index, p, kind, score) {
            let first = index::sector_at(index, p);
            return first.0 == n.0;
        }
    }
    false
}
