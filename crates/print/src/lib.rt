// The text of a report: numbers in decimal, lines, the verdict.
#![tactic(auto)]

ghost use Rattle.std.specs.Prelude.{◌≡◌, ◌+◌, ◌≤◌, length};
ghost use Rattle.buffer.specs.Bytes.{put};
ghost use Rattle.sector.specs.Sector.{line};
ghost use Rattle.sector_log.specs.LookUp.{most_sectors};
ghost use Rattle.print.specs.Text.{decimal, verdict_name, verdict, text_of};

use survey::Survey;

// Writes the decimal digits of n into d from `at` on; the place after them.
fn write_number(d: &mut [u8], at: usize, n: usize) -> usize
    requires { at + length (decimal n) ≤ length d.old }
    ensures { (d.new ≡ put d.old at (decimal n)) × (result ≡ at + length (decimal n)) }
{
    if n < 10 {
        d[at] = 48 + n as u8;
        return at + 1;
    }
    let end = write_number(d, at, n / 10);
    d[end] = 48 + (n % 10) as u8;
    end + 1
}

// Writes a line, its name, the number n and a line feed, into d from `at` on; the place after it.
fn write_line(d: &mut [u8], at: usize, name: &[u8], n: usize) -> usize
    requires { at + (length name.now + (length (decimal n) + 1)) ≤ length d.old }
    ensures { (d.new ≡ put d.old at (line name.now (decimal n))) × (result ≡ at + length (line name.now (decimal n))) }
{
    buffer::copy_at(d, at, name);
    let end = write_number(d, at + name.len(), n);
    d[end] = 10;
    end + 1
}

// Writes the line of the verdict into d from `at` on; the place after it.
fn write_verdict(d: &mut [u8], at: usize, doubtful: usize) -> usize
    requires { at + 17 ≤ length d.old }
    ensures { (d.new ≡ put d.old at (line verdict_name (verdict doubtful))) × (result ≡ at + length (line verdict_name (verdict doubtful))) }
{
    if doubtful == 0 {
        buffer::copy_at(d, at, b"verdict=sound\n");
        return at + 14;
    }
    buffer::copy_at(d, at, b"verdict=notknown\n");
    at + 17
}

// Writes the five lines to the front of d; how many bytes they are.
pub fn write_text(d: &mut [u8], count: usize, end: usize, s: Survey) -> usize
    requires { (128 ≤ length d.old) × (count ≤ most_sectors) × (end ≤ most_sectors) × (s.records ≤ most_sectors) × (s.doubtful ≤ most_sectors) }
    ensures { (d.new ≡ put d.old 0 (text_of count end s)) × (result ≡ length (text_of count end s)) }
{
    let a = write_line(d, 0, b"sectors=", count);
    let b = write_line(d, a, b"used=", end);
    let c = write_line(d, b, b"records=", s.records);
    let e = write_line(d, c, b"doubtful=", s.doubtful);
    write_verdict(d, e, s.doubtful)
}
