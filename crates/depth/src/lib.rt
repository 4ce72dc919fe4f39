// The depth of a file that is to be written.
#![tactic(auto)]

ghost use Rattle.std.specs.Prelude.{◌≡◌, ◌≤◌, ◌<◌};
ghost use Rattle.kind.specs.Kind.{longest};
ghost use Rattle.writer.specs.Depth.{least_depth, depth_of, chosen};

use kind::LONGEST;

// The least depth at which so many bytes fit, up to 7.
fn least_depth(n: usize, dsize: usize, p: usize) -> Option<usize>
    requires { (n ≤ longest) × (0 < p) × (p ≤ longest) }
    ensures { result ≡ chosen (least_depth n dsize p) }
{
    let mut room = dsize;
    for d in 0..8 {
        if n <= room {
            return Some(d);
        }
        room *= p;
    }
    None
}

// The depth of a file of n bytes; none where its sizes are not allowed, or no depth up to 7 is enough.
pub fn depth_of(n: usize, dsize: usize, psize: usize) -> Option<usize>
    requires { n ≤ longest }
    ensures { result ≡ chosen (depth_of n dsize psize) }
{
    if dsize < 1 {
        return None;
    }
    if LONGEST < dsize {
        return None;
    }
    if psize < 40 {
        return None;
    }
    if LONGEST < psize {
        return None;
    }
    least_depth(n, dsize, psize / 20)
}
