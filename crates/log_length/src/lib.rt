// The lengths that a log and a waiting part may have.
#![tactic(auto)]

ghost use Rattle.std.specs.Prelude.{◌≡◌};
ghost use Rattle.sector_log.specs.LookUp.{log_allowed, lent_allowed};

use sector::SECTOR;

// The most sectors of a log.
pub const MOST_SECTORS: usize = 1048576;

// The most sectors of a waiting part.
pub const MOST_WAITING: usize = 256;

// Whether a log is whole sectors, and not too many.
pub fn is_allowed(length: usize) -> bool
    ensures { result ≡ log_allowed length }
{
    if length % SECTOR != 0 {
        return false;
    }
    length / SECTOR <= MOST_SECTORS
}

// Test 3 of a log and a waiting part, by their lengths: each is whole sectors, and not too many.
pub fn are_allowed(log: usize, waiting: usize) -> bool
    ensures { result ≡ lent_allowed log waiting }
{
    if !is_allowed(log) {
        return false;
    }
    if waiting % SECTOR != 0 {
        return false;
    }
    waiting / SECTOR <= MOST_WAITING
}
