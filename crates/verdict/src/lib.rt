// Two entries at one position of two directory blocks: what is done with them.
#![tactic(auto)]

ghost use Rattle.std.specs.Prelude.{◌≡◌, cond, length};
ghost use Rattle.entry.specs.Entry.{well_formed};
ghost use Rattle.verdict.specs.declared.Verdict.TheVariants as verdicts;
ghost use Rattle.verdict.specs.Verdict.{same_shape, verdict_of, verdict};

use entry::Entry;

// What is done with two entries.
#[derive(Clone, Copy)]
pub enum Verdict {
    // They are equal, or both inactive.
    Skip,
    // An active one is ill-formed.
    IllFormed,
    // Two directories of one shape.
    Open,
    // Any other two that differ.
    Differ,
}

// Whether two entries are directories of equal psize, dsize and depth.
fn same_shape(e: Entry, d: Entry) -> bool
    ensures { result ≡ same_shape e d }
{
    if !e.directory {
        return false;
    }
    if !d.directory {
        return false;
    }
    if e.psize != d.psize {
        return false;
    }
    if e.dsize != d.dsize {
        return false;
    }
    e.depth == d.depth
}

// Of two entries one of which is active: that one.
fn judge_one(e: Entry) -> Verdict
    ensures { result ≡ cond (well_formed e) verdicts.Differ verdicts.IllFormed }
{
    if entry::is_well_formed(e) {
        return Verdict::Differ;
    }
    Verdict::IllFormed
}

// What is done with two entries whose bytes differ.
fn judge_entries(e: Entry, d: Entry) -> Verdict
    ensures { result ≡ verdict_of e d }
{
    if !e.active {
        if !d.active {
            return Verdict::Skip;
        }
        return judge_one(d);
    }
    if !d.active {
        return judge_one(e);
    }
    if !entry::is_well_formed(e) {
        return Verdict::IllFormed;
    }
    if !entry::is_well_formed(d) {
        return Verdict::IllFormed;
    }
    if same_shape(e, d) {
        return Verdict::Open;
    }
    Verdict::Differ
}

// What is done with two entries, by their bytes.
pub fn judge(x: &[u8], y: &[u8]) -> Verdict
    requires { (length x.now ≡ 40) × (length y.now ≡ 40) }
    ensures { result ≡ verdict x.now y.now }
{
    if buffer::equal(x, y) {
        return Verdict::Skip;
    }
    judge_entries(entry::entry_at(x, 0), entry::entry_at(y, 0))
}
