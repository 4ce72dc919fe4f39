// What a sound block is tested for: its labels, its checks, the zeros behind its bytes, and the numbers in a label. The block is read from the first `end`
// sectors of a log and the sectors that wait behind them, read as one.
#![tactic(auto)]

ghost use Rattle.std.specs.Prelude.{◌≡◌, ◌+◌, ◌-◌, ◌≤◌, ◌<◌, length, take, drop};
ghost use Rattle.buffer.specs.Bytes.{Bytes, zeros};
ghost use Rattle.sector.specs.Sector.{front_of, date_field, behind, lines_length, sector_length};
ghost use Rattle.block.specs.Block.{parts_in, Inside};
ghost use Rattle.block.specs.Log.{at, payloads, labelled, checked};
ghost use Rattle.block_tests.specs.Number.{number_of};
ghost use Rattle.two_runs.specs.Runs.{read_as_one, sectors_of_both, EndsWithin};

use block::Block;
use sector::{BODY, Label};
pub use sector_lines::has_label;
use sector_number::SectorNumber;
use two_runs::Runs;
pub use two_runs::{sector_at, used_part};

// Whether the sectors of a block have the labels of its parts, each behind `front`.
pub fn labels_agree<'a>(runs: Runs<'a>, front: &[u8], b: Block, kind: u8, score: &[u8]) -> bool
    requires { EndsWithin runs × Inside (sectors_of_both runs) b × (length front.now + lines_length ≡ b.label) × (length score.now ≡ 20) }
    ensures { (date : Bytes) → front_of date ≡ front.now →
        result ≡ labelled (read_as_one runs.entry) date (parts_in b) b.first.0 kind b.size score.now (parts_in b) 0 }
{
    let first = b.first;
    let of = block::parts_of(b.label, b.size);
    for i in 0..of {
        let label = Label {
            first,
            part: i,
            of,
            kind,
            size: b.size,
        };
        let n = first.0 + i;
        let s = two_runs::sector_at(runs, SectorNumber(n));
        if !sector_lines::has_label(s, front, label, score) {
            return false;
        }
    }
    true
}

// Whether the checks of `count` sectors from `first` on fit.
pub fn checks_fit<'a>(runs: Runs<'a>, first: SectorNumber, count: usize) -> bool
    requires { EndsWithin runs × (first.0 + count ≤ sectors_of_both runs) }
    ensures { result ≡ checked (read_as_one runs.entry) count first.0 }
{
    let low = crc32_tables::digits::low();
    let high = crc32_tables::digits::high();
    let last = first.0 + count;
    for n in first.0..last {
        let s = two_runs::sector_at(runs, SectorNumber(n));
        if !sector_lines::has_check(&low, &high, s) {
            return false;
        }
    }
    true
}

// Whether the payloads of a block hold zeros behind its bytes: only the last of them has room there.
pub fn rest_is_zero<'a>(runs: Runs<'a>, b: Block) -> bool
    requires { EndsWithin runs × (0 < b.size) × Inside (sectors_of_both runs) b }
    ensures { result ≡ zeros (drop b.size (payloads b.label (read_as_one runs.entry) (parts_in b) b.first.0)) }
{
    let p = block::payload_of(b.label);
    let last = (b.size - 1) / p;
    let from = b.label + (b.size - p * last);
    let n = b.first.0 + last;
    let s = two_runs::sector_at(runs, SectorNumber(n));
    buffer::is_zero(&s[from..BODY])
}

// The number that the hex digits of a field make, in the label of sector n behind a front of this length, and 0 where one of them is none.
pub fn field_number<'a>(
    runs: Runs<'a>,
    n: SectorNumber,
    front: usize,
    field: usize,
    width: usize,
) -> usize
    requires { EndsWithin runs × (n.0 < sectors_of_both runs)
        × (front ≡ length (front_of (date_field (at (read_as_one runs) n.0)))) × (field + width ≤ lines_length) × (width ≤ 16) }
    ensures { result ≡ number_of (take width (drop field (behind (at (read_as_one runs.entry) n.0)))) }
{
    let s = two_runs::sector_at(runs, n);
    let from = front + field;
    let to = from + width;
    hexadecimal::read_hex(&s[from..to]).unwrap_or(0) as usize
}

// The number that the hex digits of sector n from byte `from` to byte `to` make, and 0 where one of them is none.
pub fn number_at<'a>(runs: Runs<'a>, n: SectorNumber, from: usize, to: usize) -> usize
    requires { EndsWithin runs × (n.0 < sectors_of_both runs) × (from ≤ to) × (to ≤ from + 16) × (to ≤ sector_length) }
    ensures { result ≡ number_of (take (to - from) (drop from (at (read_as_one runs.entry) n.0))) }
{
    let s = two_runs::sector_at(runs, n);
    hexadecimal::read_hex(&s[from..to]).unwrap_or(0) as usize
}
