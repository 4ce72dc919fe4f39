// Filling a lent buffer from a file: leaf by leaf, each leaf looked for once.
#![tactic(auto)]

ghost use Rattle.std.specs.Prelude.{◌≡◌, ◌-◌, ◌%◌, ◌<◌, min, length};
ghost use Rattle.leaf.specs.Fetch.{Open};
ghost use Rattle.fill.specs.Fill.{stop_number, fill_outcome, filled_with, byte_below, gathered};
ghost use Rattle.two_runs.specs.Runs.{read_as_one, EndsWithin};

use entry::Entry;
use refusal::Refusal;
use sector_number::SectorNumber;
use two_runs::Runs;

// What filling a buffer answers: how many bytes are written to its front, and how it ended.
#[derive(Clone, Copy)]
pub struct Filled {
    pub count: usize,
    // Ok where the buffer or the file is full, else the refusal at the first offset that has one.
    pub stop: Result<(), Refusal>,
}

// The number of how filling a buffer ended: 0 for done.
pub fn number(stop: Result<(), Refusal>) -> u8
    ensures { result ≡ stop_number stop }
{
    match stop {
        Ok(()) => 0,
        Err(why) => refusal::number(why),
    }
}

// The lesser of two.
fn lesser(a: usize, b: u64) -> usize
    ensures { result ≡ min a b }
{
    (a as u64).min(b) as usize
}

// Fills d from an offset on, up to its end or that of the leaf in which the offset lies, below the score at the top level. The leaf is
// looked for once; where it is missing nothing is written, and the look-up's refusal is the end.
fn fill_leaf<'a>(runs: Runs<'a>, e: Entry, top: &[u8], offset: u64, d: &mut [u8]) -> Filled
    requires { EndsWithin runs × Open e offset × (length top.now ≡ 20) × (0 < length d.old) }
    ensures { fill_outcome result d.new
        ≡ filled_with d.old
        (gathered (byte_below (read_as_one runs.entry) e top.now) (min (length d.old) (e.dsize - offset % e.dsize)) offset) }
{
    let look = file::descend(runs, e, offset, top);
    match look {
        Ok(b) => {
            let k = (offset % e.dsize as u64) as usize;
            let n = lesser(d.len(), (e.dsize - k) as u64);
            tree::read_part(runs, b, k, &mut d[..n]);
            Filled {
                count: n,
                stop: Ok(()),
            }
        }
        Err(why) => Filled {
            count: 0,
            stop: Err(why),
        },
    }
}

// Fills d from an offset on, up to its end or the file's, below the score at the top level: leaf by leaf.
pub fn fill_leaves<'a>(runs: Runs<'a>, e: Entry, top: &[u8], offset: u64, d: &mut [u8]) -> Filled
    requires { EndsWithin runs × Open e offset × (length top.now ≡ 20) }
    ensures { fill_outcome result d.new
        ≡ filled_with d.old
        (gathered (byte_below (read_as_one runs.entry) e top.now) (min (length d.old) (e.size - offset)) offset) }
{
    let count = lesser(d.len(), e.size - offset);
    let mut done: usize = 0;
    while done < count {
        let o = offset + done as u64;
        let leaf = fill_leaf(runs, e, top, o, &mut d[done..count]);
        let stop = leaf.stop;
        done += leaf.count;
        let Ok(()) = stop else {
            return Filled { count: done, stop };
        };
    }
    Filled {
        count: done,
        stop: Ok(()),
    }
}
