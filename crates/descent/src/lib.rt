// What is below a block, as a definition, and its laws; what is done with a listed entry, the nest of its blocks, and which part is below one.
#![tactic(auto)]

ghost use Rattle.std.specs.Prelude.{◌≡◌, ◌≤◌};
ghost use Rattle.descent.specs.Descent.{nest_of};
ghost use Rattle.descent.specs.Parts.{judged_of, below_of};

use entry::Entry;
use refusal::Refusal;

// What is done with an entry of a directory block.
#[derive(Clone, Copy)]
pub enum Judged {
    // It is not visited: how it ends.
    Ends(Result<(), Refusal>),
    Visited,
}

// Which part is below a block.
#[derive(Clone, Copy)]
pub enum Below {
    // None: how the block ends.
    Ends(Result<(), Refusal>),
    // The entries of a directory block.
    Entries,
    // The scores of a pointer block.
    Scores,
}

// What is done with an entry of a directory block: an inactive one is skipped, and an ill-formed active one is refused.
pub fn judge(e: Entry) -> Judged
    ensures { result ≡ judged_of e }
{
    if e.active {
        if entry::is_well_formed(e) {
            return Judged::Visited;
        }
        return Judged::Ends(Err(Refusal::Entry));
    }
    Judged::Ends(Ok(()))
}

// The nest of an entry's blocks, in a directory block of a nest.
pub fn nest_of(e: Entry, nest: usize) -> usize
    requires { nest ≤ 16 }
    ensures { result ≡ nest_of e nest }
{
    if e.directory {
        return nest + 1;
    }
    nest
}

// Which part is below a block of an entry at a level, by its size: 18 is a pointer block that is not a multiple of 20.
pub fn below_block(e: Entry, level: usize, size: usize) -> Below
    ensures { result ≡ below_of e level size }
{
    if level == 0 {
        if e.directory {
            return Below::Entries;
        }
        return Below::Ends(Ok(()));
    }
    if size % 20 != 0 {
        return Below::Ends(Err(Refusal::Pointers));
    }
    Below::Scores
}
