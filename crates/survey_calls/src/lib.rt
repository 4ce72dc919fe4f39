// What a log holds: its report, and the sound block at a sector.
#![tactic(auto)]

ghost use Rattle.std.specs.Prelude.{◌≡◌, ◌≤◌};
ghost use Rattle.report.specs.Report.{report_of};
ghost use Rattle.survey_calls.specs.Survey.{text_length, report_number, reported, report_result, sound_result};

use refusal::Refusal;
use sector::SECTOR;
use sector_number::SectorNumber;
use two_runs::Runs;

// The result of a report: 256 times the length of its text, or the number of the refusal.
fn report_number(told: Result<usize, Refusal>) -> u32
    requires { text_length told ≤ 128 }
    ensures { result ≡ report_number told }
{
    match told {
        Ok(n) => 256 * (n as u32),
        Err(why) => refusal::number(why) as u32,
    }
}

// The report of a log, at the front of the buffer. The result is 256 times the length of its text, or the number of the refusal.
pub fn report(log: &[u8], buffer: &mut [u8]) -> u32
    ensures { reported result buffer.new ≡ report_result (report_of log.now buffer.old) }
{
    report_number(report::report(log, buffer))
}

// 256 times the size of the sound block that starts at sector n, 0 where none does, or the number of the refusal.
pub fn sound_at(log: &[u8], n: usize) -> u32
    ensures { result ≡ sound_result log.now n }
{
    if !lookup::is_allowed(log.len()) {
        return refusal::number(Refusal::LogLength) as u32;
    }
    let count = log.len() / SECTOR;
    if count <= n {
        return 0;
    }
    let none = [0u8; 0];
    let place = reader::sound_at(
        Runs {
            log,
            end: SectorNumber(count),
            waiting: &none,
        },
        SectorNumber(n),
    );
    match place {
        Some(b) => 256 * (b.size as u32),
        None => 0,
    }
}
