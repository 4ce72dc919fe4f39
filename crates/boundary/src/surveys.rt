// What a log holds: its report, and the sound block at a sector.
ghost use Rattle.std.specs.Prelude.{◌≡◌};
ghost use Rattle.report.specs.Report.{report_of};
ghost use Rattle.survey_calls.specs.Survey;

// The report of a log, at the front of the buffer. The result is 256 times the length of its text, or the number of the refusal.
#[unsafe(no_mangle)]
pub extern "C" fn skywimple_report(log: &[u8], buffer: &mut [u8]) -> u32
    ensures { Survey.reported result buffer.new ≡ Survey.report_result (report_of log.now buffer.old) }
{
    survey_calls::report(log, buffer)
}

// 256 times the size of the sound block that starts at sector n, 0 where none does, or the number of the refusal.
#[unsafe(no_mangle)]
pub extern "C" fn skywimple_sound_at(log: &[u8], n: usize) -> u32
    ensures { result ≡ Survey.sound_result log.now n }
{
    survey_calls::sound_at(log, n)
}
