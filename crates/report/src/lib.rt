// The report of a log: its sectors, used part, sound blocks and doubtful sectors, counted and printed.
#![tactic(auto)]

ghost use Rattle.std.specs.Prelude.{◌≡◌};
ghost use Rattle.report.specs.Report.{report_outcome, report_of};

use refusal::Refusal;
use sector::SECTOR;

// The report of any log, at the front of the lent buffer: how many bytes it fills.
pub fn report(log: &[u8], buffer: &mut [u8]) -> Result<usize, Refusal>
    ensures { report_outcome result buffer.new ≡ report_of log.now buffer.old }
{
    if buffer.len() < 128 {
        return Err(Refusal::Buffer);
    }
    if !lookup::is_allowed(log.len()) {
        return Err(Refusal::LogLength);
    }
    let count = log.len() / SECTOR;
    let end = reader::used_part(log);
    let s = survey::scan(log, end);
    Ok(print::write_text(buffer, count, end.0, s))
}
