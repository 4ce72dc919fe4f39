// The lines of a sector: label and check, written and tested; a whole sector written.
#![tactic(auto)]

ghost use Rattle.std.specs.Prelude.{◌≡◌, ◌++◌, ◌+◌, ◌≤◌, length, take};
ghost use Rattle.buffer.specs.Bytes.{same, put};
ghost use Rattle.hexadecimal.specs.Hex.{hex, hex_bytes};
ghost use Rattle.crc32_tables.specs.Digits.{rows};
ghost use Rattle.sector.specs.Sector.{line, date_name, score_name, label_of, fits, encode, sector_length, body_length, lines_length, front_length, score_line_length};

use sector::{
    BODY, DATE, DATE_END, KIND_LINE, KIND_WIDTH, LABEL, Label, OF_LINE, PART_LINE, PART_WIDTH,
    REC_WIDTH, SCORE, SCORE_LINE, SCORE_WIDTH, SECTOR, SIZE_LINE, SIZE_WIDTH,
};

// The name of the score's line.
const SCORE_NAME: usize = SCORE - SCORE_LINE;

// The line of the check, and how many digits it has.
const CHECK: usize = SECTOR - BODY;

const CHECK_WIDTH: usize = 8;

// Writes the line of a date.
pub fn write_front(d: &mut [u8], date: &[u8])
    requires { (length d.old ≡ front_length) × (length date.now ≡ 8) }
    ensures { d.new ≡ line date_name date.now }
{
    buffer::copy_at(d, 0, b"date=");
    buffer::copy_at(d, DATE, date);
    d[DATE_END] = 10;
}

// Writes a line, its name, the digits of n and a line feed, into d from `at` on.
pub fn write_line(d: &mut [u8], at: usize, name: &[u8], width: usize, n: usize)
    requires { at + (length name.now + (width + 1)) ≤ length d.old }
    ensures { d.new ≡ put d.old at (line name.now (hex width n)) }
{
    buffer::copy_at(d, at, name);
    let from = at + name.len();
    let end = from + width;
    hexadecimal::put_hex(&mut d[from..end], n as u64);
    d[end] = 10;
}

// Writes the line of a score into d from `at` on.
fn write_score(d: &mut [u8], at: usize, score: &[u8])
    requires { (at + score_line_length ≤ length d.old) × (length score.now ≡ 20) }
    ensures { d.new ≡ put d.old at (line score_name (hex_bytes score.now)) }
{
    buffer::copy_at(d, at, b"score=");
    let from = at + SCORE_NAME;
    let end = from + SCORE_WIDTH;
    hexadecimal::put_hex_bytes(&mut d[from..end], score);
    d[end] = 10;
}

// Writes the six lines of a label to the front of d.
pub fn write_label(d: &mut [u8], l: Label, score: &[u8])
    requires { (lines_length ≤ length d.old) × (length score.now ≡ 20) }
    ensures { d.new ≡ put d.old 0 (label_of l score.now) }
{
    let first = l.first;
    write_line(d, 0, b"rec=", REC_WIDTH, first.0);
    write_line(d, PART_LINE, b"part=", PART_WIDTH, l.part);
    write_line(d, OF_LINE, b"of=", PART_WIDTH, l.of);
    write_line(d, KIND_LINE, b"type=", KIND_WIDTH, l.kind as usize);
    write_line(d, SIZE_LINE, b"size=", SIZE_WIDTH, l.size);
    write_score(d, SCORE_LINE, score);
}

// Whether a sector begins with `front` and then exactly the lines of a label.
pub fn has_label(s: &[u8], front: &[u8], l: Label, score: &[u8]) -> bool
    requires { (length front.now + lines_length ≤ length s.now) × (length score.now ≡ 20) }
    ensures { result ≡ same (take (length front.now + lines_length) s.now) (front.now ++ label_of l score.now) }
{
    let from = front.len();
    if !buffer::equal(&s[..from], front) {
        return false;
    }
    let mut expected = [0u8; LABEL];
    write_label(&mut expected, l, score);
    let end = from + LABEL;
    buffer::agree(&s[from..end], &expected)
}

// Whether the last 13 bytes of a sector are exactly the line of its check, by the check's tables, which are lent.
pub fn has_check(low: &[u32; 256], high: &[u32; 256], s: &[u8]) -> bool
    requires { (low.now ≡ rows 64 16) × (high.now ≡ rows 0 16) × (length s.now ≡ sector_length) }
    ensures { result ≡ fits s.now }
{
    let crc = crc32::by_digits(low, high, &s[..BODY]);
    let mut expected = [0u8; CHECK];
    write_line(&mut expected, 0, b"crc=", CHECK_WIDTH, crc as usize);
    buffer::equal(&s[BODY..], &expected)
}

// Writes a sector: `front` and the lines of the label, a piece of data filled up with zeros, and the check.
pub fn write_sector(d: &mut [u8], front: &[u8], l: Label, score: &[u8], piece: &[u8])
    requires { (length d.old ≡ sector_length) × (length score.now ≡ 20) × (length front.now + (lines_length + length piece.now) ≤ body_length) }
    ensures { d.new ≡ encode (front.now ++ label_of l score.now) piece.now }
{
    buffer::copy_at(d, 0, front);
    let from = front.len();
    write_label(&mut d[from..], l, score);
    let at = from + LABEL;
    buffer::copy_at(d, at, piece);
    let end = at + piece.len();
    buffer::clear(&mut d[end..BODY]);
    let crc = crc32::crc32(&d[..BODY]);
    write_line(d, BODY, b"crc=", CHECK_WIDTH, crc as usize);
}
