// A pair of blocks opened: the tests before it, then both are looked up. The blocks lie in two runs of sectors that are read as one, as in
// `two_runs`.
#![tactic(auto)]

ghost use Rattle.std.specs.Prelude.{◌≡◌, ◌≤◌, length};
ghost use Rattle.walk.specs.Walk.{most_allowance};
ghost use Rattle.comparison.specs.Compared.{one_unit, refused as refused_by};
ghost use Rattle.open_pair.specs.Opens.{Opens};
ghost use Rattle.two_runs.specs.Runs.{read_as_one, sectors_of_both, EndsWithin};

use block::Block;
use comparison::Compared;
use entry::Entry;
use refusal::Refusal;
use sector_number::SectorNumber;
use two_runs::Runs;

// What opening a pair gives: what the comparison of the pair is, or where its two blocks are.
#[derive(Clone, Copy)]
pub enum Pair {
    Ended(Compared),
    Both(Block, Block),
}

// A comparison that is refused before anything is counted or spent.
pub fn refused(why: Refusal) -> Compared
    ensures { result ≡ refused_by why }
{
    Compared {
        count: 0,
        units: 0,
        end: Err(why),
    }
}

// A comparison with one unit more.
pub fn one_unit(c: Compared) -> Compared
    requires { c.units ≤ most_allowance }
    ensures { result ≡ one_unit c }
{
    let end = c.end;
    Compared {
        count: c.count,
        units: c.units + 1,
        end,
    }
}

// Opens the pair of blocks under two scores, at a level: equal scores are skipped, else the first block is read and checked before the
// second. A block that can't be read is its refusal, and its unit is spent.
pub fn open<'a>(
    runs: Runs<'a>,
    e: Entry,
    level: usize,
    nest: usize,
    s: &[u8],
    t: &[u8],
    left: usize,
) -> Pair
    requires { EndsWithin runs × (length s.now ≡ 20) × (length t.now ≡ 20) × (level ≤ 7) }
    ensures { Opens (read_as_one runs.entry) (sectors_of_both runs.entry) e level nest s.now t.now left result }
{
    if buffer::equal(s, t) {
        return Pair::Ended(Compared {
            count: 0,
            units: 0,
            end: Ok(()),
        });
    }
    if 16 < nest {
        return Pair::Ended(refused(Refusal::Nest));
    }
    if left == 0 {
        return Pair::Ended(refused(Refusal::Spent));
    }
    let one = pair::read_block(runs, e, s, level);
    match one {
        Ok(b) => {
            let other = pair::read_block(runs, e, t, level);
            match other {
                Ok(c) => Pair::Both(b, c),
                Err(why) => Pair::Ended(one_unit(refused(why))),
            }
        }
        Err(why) => Pair::Ended(one_unit(refused(why))),
    }
}
