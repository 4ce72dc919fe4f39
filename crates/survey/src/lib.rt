// The survey of a log: its sound blocks and doubtful sectors, counted.
#![tactic(auto)]

ghost use Rattle.std.specs.Prelude.{◌≡◌};
ghost use Rattle.block.specs.Log.{used};
ghost use Rattle.survey.specs.Survey.{survey_of};

use sector::SECTOR;
use sector_number::SectorNumber;
use two_runs::Runs;

// The sound blocks of a log and its doubtful sectors, counted.
#[derive(Clone, Copy)]
pub struct Survey {
    pub records: usize,
    pub doubtful: usize,
}

// One walk from the front to the end of the used part: past a sound block at once, past any other sector by one.
pub fn scan(log: &[u8], end: SectorNumber) -> Survey
    requires { end.0 ≡ used log.now }
    ensures { result ≡ survey_of log.now }
{
    let none = [0u8; 0];
    let whole = SectorNumber(log.len() / SECTOR);
    let mut records: usize = 0;
    let mut doubtful: usize = 0;
    let mut n: usize = 0;
    while n < end.0 {
        let place = reader::sound_at(
            Runs {
                log,
                end: whole,
                waiting: &none,
            },
            SectorNumber(n),
        );
        match place {
            Some(b) => {
                let parts = block::parts_of(b.label, b.size);
                records += 1;
                n += parts;
            }
            None => {
                doubtful += 1;
                n += 1;
            }
        }
    }
    Survey { records, doubtful }
}
