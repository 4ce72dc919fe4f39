// Builds small trees in a log, reads and walks them, and prints a line for each answer.
#![tactic(auto)]

ghost use Rattle.std.specs.Prelude.{◌≡◌, ◌+◌, ◌*◌, ◌≤◌, ◌<◌, length};

use file::Located;
use kind::LONGEST;
use refusal::Refusal;
use std::io;

// ---- printing

fn wide(x: u8) -> u64 {
    x as u64
}

fn print(rt: &impl Print, text: &[u8]) -> io::Result<()> {
    rt.write_all(text)
}

// A name and a number.
fn print_number(rt: &impl Print, name: &[u8], n: u64) -> io::Result<()> {
    print(rt, name)?;
    print!(rt; "{n}")
}

// A name and bytes in hexadecimal.
fn print_bytes(rt: &impl Print, name: &[u8], s: &[u8]) -> io::Result<()> {
    print(rt, name)?;
    for b in s {
        print!(rt; "{b:02x}")?;
    }
    Ok(())
}

// ---- blocks

// Empties the log for a tree, and prints the tree's name.
fn begin(rt: &impl Print, log: &mut [u8], name: &[u8]) -> io::Result<()> {
    buffer::clear(log);
    print(rt, name)?;
    print(rt, b"\n")
}

// Stores a block and settles it; its score.
fn put(log: &mut [u8], kind: u8, data: &[u8]) -> [u8; 20] {
    if LONGEST < data.len() {
        return kind::zero_score();
    }
    let mut waiting = [0u8; 8192];
    let receipt = store::store(log, &mut waiting, b"20261116", kind, data);
    settle::settle(log, &mut waiting);
    receipt.score
}

// Fills d with the bytes of the example file from an offset on: byte k of it is k modulo 251, plus 1.
fn fill(d: &mut [u8], from: usize) {
    for i in 0..d.len() {
        d[i] = ((from % 251 + i % 251) % 251 + 1) as u8;
    }
}

// Stores n bytes of the example file from an offset on.
fn put_leaf(log: &mut [u8], from: usize, n: usize) -> [u8; 20]
    requires { n ≤ 500 }
{
    let mut d = [0u8; 500];
    fill(&mut d, from);
    put(log, 13, &d[..n])
}

// Sets score k of a list of scores.
fn set_score(scores: &mut [u8], k: usize, score: &[u8; 20])
    requires { 20 * k + 20 ≤ length scores.old }
{
    buffer::copy_at(scores, 20 * k, score);
}

// Stores n leaves of 5 bytes and lists their scores; the last of them.
fn put_leaves(log: &mut [u8], scores: &mut [u8], n: usize) -> [u8; 20]
    requires { (n ≤ 27) × (540 ≡ length scores.old) }
{
    let mut last = kind::zero_score();
    for k in 0..n {
        last = put_leaf(log, 5 * k, 5);
        set_score(scores, k, &last);
    }
    last
}

// Stores n pointer blocks of three scores each; their scores take the place of those. The last of them.
fn put_pointers(log: &mut [u8], kind: u8, scores: &mut [u8], n: usize) -> [u8; 20]
    requires { (n ≤ 9) × (540 ≡ length scores.old) }
{
    let mut last = kind::zero_score();
    for k in 0..n {
        let from = 60 * k;
        let to = from + 60;
        last = put(log, kind, &scores[from..to]);
        set_score(scores, k, &last);
    }
    last
}

// How many leaves a tree of three pointers a block has.
fn leaves(depth: usize) -> usize
    ensures { result ≤ 27 }
{
    match depth {
        0 => 1,
        1 => 3,
        2 => 9,
        _ => 27,
    }
}

// Stores the whole tree of a depth, leaf after leaf, then level by level; its top score.
fn put_tree(log: &mut [u8], depth: usize) -> [u8; 20]
    requires { depth ≤ 3 }
{
    let mut scores = [0u8; 540];
    let mut n = leaves(depth);
    let mut top = put_leaves(log, &mut scores, n);
    for level in 0..depth {
        n = n / 3;
        top = put_pointers(log, (3 + level) as u8, &mut scores, n);
    }
    top
}

// An entry of three pointers a block, printed.
fn entry(
    rt: &impl Print,
    dsize: usize,
    flags: u8,
    size: usize,
    score: &[u8; 20],
) -> io::Result<[u8; 40]> {
    let mut e = [0u8; 40];
    e[5] = 60;
    e[6] = (dsize / 256 % 256) as u8;
    e[7] = (dsize % 256) as u8;
    e[8] = flags;
    e[18] = (size / 256 % 256) as u8;
    e[19] = (size % 256) as u8;
    buffer::copy_at(&mut e, 20, score);
    print_bytes(rt, b"entry=", &e)?;
    print(rt, b"\n")?;
    Ok(e)
}

// Stores a root, all of it, with the score of a root before it that no log here holds.
fn put_root(log: &mut [u8], directory: &[u8; 20]) -> [u8; 20] {
    let mut r = [0u8; 300];
    r[1] = 2;
    r[280] = 85;
    buffer::copy_at(&mut r, 258, directory);
    put(log, 1, &r)
}

// Stores a root of 278 bytes, whose rest is zeros.
fn put_short_root(log: &mut [u8], directory: &[u8; 20]) -> [u8; 20] {
    let mut r = [0u8; 278];
    r[1] = 2;
    buffer::copy_at(&mut r, 258, directory);
    put(log, 1, &r)
}

// Damages a byte of a sector.
fn damage(log: &mut [u8], sector: usize)
    requires { sector < 127 }
{
    let at = 512 * sector + 96;
    if at < log.len() {
        log[at] = log[at] ^ 255;
    }
}

// ---- reading

// Prints which buffer holds a run, and where it starts there.
fn print_place(rt: &impl Print, run: Result<Located, Refusal>) -> io::Result<()> {
    match run {
        Ok(Located::Stored { at, length: _ }) => print_number(rt, b" from=log start=", at as u64),
        Ok(Located::Waiting { at, length: _ }) => print_number(
            rt,
            b" from=waiting start=",
            at as u64,
        ),
        Ok(Located::Zeros { length: _ }) => print(rt, b" from=page start=0"),
        Err(_) => Ok(()),
    }
}

// Prints the answer at an offset; the run's length.
fn read_at<'a>(
    rt: &impl Print,
    log: &'a [u8],
    waiting: &'a [u8],
    page: &'a [u8],
    entry: &[u8],
    offset: u64,
) -> io::Result<usize> {
    let run = file::locate(log, waiting, page, entry, offset);
    let bytes = file_read::read(log, waiting, page, entry, offset);
    print_number(rt, b"offset=", offset)?;
    print_number(rt, b" number=", wide(file::number(run)))?;
    print_place(rt, run)?;
    print_number(rt, b" length=", bytes.len() as u64)?;
    print_bytes(rt, b" bytes=", bytes)?;
    print(rt, b"\n")?;
    Ok(bytes.len())
}

// How far to go on: past the run, or past the leaf where there is none.
fn step(length: usize, dsize: u64) -> u64
    requires { 0 < dsize }
    ensures { 0 < result }
{
    if length == 0 {
        return dsize;
    }
    length as u64
}

// Reads a file from run to run, and once at its end.
fn read_parts<'a>(
    rt: &impl Print,
    log: &'a [u8],
    waiting: &'a [u8],
    page: &'a [u8],
    entry: &[u8],
    dsize: u64,
    size: u64,
) -> io::Result<()>
    requires { 0 < dsize }
{
    let mut offset: u64 = 0;
    while offset < size {
        let n = step(read_at(rt, log, waiting, page, entry, offset)?, dsize);
        if size - offset < n {
            offset = size;
        } else {
            offset += n;
        }
    }
    read_at(rt, log, waiting, page, entry, size)?;
    Ok(())
}

// The same with nothing waiting.
fn read_file<'a>(
    rt: &impl Print,
    log: &'a [u8],
    page: &'a [u8],
    entry: &[u8],
    dsize: u64,
    size: u64,
) -> io::Result<()>
    requires { 0 < dsize }
{
    let none = [0u8; 0];
    read_parts(rt, log, &none, page, entry, dsize, size)
}

// ---- walking

// Prints the answer of a walk; its visits.
fn walk_with<'a>(
    rt: &impl Print,
    log: &'a [u8],
    waiting: &'a [u8],
    root: &[u8; 20],
    allowance: u64,
) -> io::Result<u64> {
    let w = walk::walk(log, waiting, root, allowance);
    let end = w.end;
    print_number(rt, b"allowance=", allowance)?;
    print_number(rt, b" number=", wide(walk::number(end)))?;
    print_number(rt, b" visits=", w.visits as u64)?;
    print(rt, b"\n")?;
    Ok(w.visits as u64)
}

// Walks with a large allowance, with the visits that it spent, and with one less.
fn walk_parts<'a>(
    rt: &impl Print,
    log: &'a [u8],
    waiting: &'a [u8],
    root: &[u8; 20],
) -> io::Result<()> {
    print_bytes(rt, b"root=", root)?;
    print(rt, b"\n")?;
    let visits = walk_with(rt, log, waiting, root, 1000)?;
    walk_with(rt, log, waiting, root, visits)?;
    if 0 < visits {
        walk_with(rt, log, waiting, root, visits - 1)?;
    }
    Ok(())
}

// The same with nothing waiting.
fn walk_thrice(rt: &impl Print, log: &[u8], root: &[u8; 20]) -> io::Result<()> {
    let none = [0u8; 0];
    walk_parts(rt, log, &none, root)
}

// Walks from a root above a directory block of some entries.
fn walk_above(rt: &impl Print, log: &mut [u8], entries: &[u8]) -> io::Result<()> {
    let directory = put(log, 2, entries);
    let root = put_short_root(log, &directory);
    walk_thrice(rt, log, &root)
}

// ---- trees

// A leaf across two payloads, longer than the file.
fn wide_leaf(rt: &impl Print, log: &mut [u8]) -> io::Result<()> {
    begin(rt, log, b"tree=wide_leaf")?;
    let top = put_leaf(log, 0, 500);
    let e = entry(rt, 500, 1, 450, &top)?;
    let page = [0u8; 64];
    read_file(rt, log, &page, &e, 500, 450)?;
    walk_above(rt, log, &e)
}

// A leaf shorter than the file: the rest is zeros, a page at a time.
fn short_leaf(rt: &impl Print, log: &mut [u8]) -> io::Result<()> {
    begin(rt, log, b"tree=short_leaf")?;
    let top = put_leaf(log, 0, 410);
    let e = entry(rt, 500, 1, 500, &top)?;
    let page = [0u8; 64];
    read_file(rt, log, &page, &e, 500, 500)?;
    walk_above(rt, log, &e)
}

// A whole tree of leaves of 5 bytes.
fn whole(rt: &impl Print, log: &mut [u8], name: &[u8], depth: usize, size: usize) -> io::Result<()>
    requires { depth ≤ 3 }
{
    begin(rt, log, name)?;
    let top = put_tree(log, depth);
    let e = entry(rt, 5, (1 + 4 * depth) as u8, size, &top)?;
    let page = [0u8; 64];
    read_file(rt, log, &page, &e, 5, size as u64)?;
    walk_above(rt, log, &e)
}

// Reads and walks a file of leaves of 5 bytes, with a page of 4.
fn read_hole(rt: &impl Print, log: &mut [u8], e: &[u8; 40], size: u64) -> io::Result<()> {
    let page = [0u8; 4];
    read_file(rt, log, &page, e, 5, size)?;
    walk_above(rt, log, e)
}

// Stores a pointer block of three scores.
fn put_three(log: &mut [u8], a: &[u8; 20], b: &[u8; 20], c: &[u8; 20]) -> [u8; 20] {
    let mut p = [0u8; 60];
    buffer::copy_at(&mut p, 0, a);
    buffer::copy_at(&mut p, 20, b);
    buffer::copy_at(&mut p, 40, c);
    put(log, 3, &p)
}

// The zero score between two leaves, the second of 2 bytes. The page is shorter than a leaf.
fn zero_leaf(rt: &impl Print, log: &mut [u8]) -> io::Result<()> {
    begin(rt, log, b"tree=zero_leaf")?;
    let first = put_leaf(log, 0, 5);
    let last = put_leaf(log, 10, 2);
    let top = put_three(log, &first, &kind::zero_score(), &last);
    read_hole(rt, log, &entry(rt, 5, 5, 15, &top)?, 15)
}

// A pointer block of one score, under one of one score.
fn short_pointers(rt: &impl Print, log: &mut [u8]) -> io::Result<()> {
    begin(rt, log, b"tree=short_pointers")?;
    let leaf = put_leaf(log, 0, 5);
    let below = put(log, 3, &leaf);
    let top = put(log, 4, &below);
    read_hole(rt, log, &entry(rt, 5, 9, 40, &top)?, 40)
}

// The zero score at the top.
fn zero_top(rt: &impl Print, log: &mut [u8]) -> io::Result<()> {
    begin(rt, log, b"tree=zero_top")?;
    let top = kind::zero_score();
    read_hole(rt, log, &entry(rt, 5, 13, 12, &top)?, 12)
}

// Stores a directory block of one entry, a file of 5 bytes.
fn put_one(rt: &impl Print, log: &mut [u8], from: usize) -> io::Result<[u8; 20]> {
    let leaf = put_leaf(log, from, 5);
    let e = entry(rt, 5, 1, 5, &leaf)?;
    Ok(put(log, 2, &e))
}

// Stores two such blocks under a pointer block.
fn put_two(rt: &impl Print, log: &mut [u8]) -> io::Result<[u8; 20]> {
    let first = put_one(rt, log, 100)?;
    let second = put_one(rt, log, 105)?;
    let mut p = [0u8; 40];
    buffer::copy_at(&mut p, 0, &first);
    buffer::copy_at(&mut p, 20, &second);
    Ok(put(log, 3, &p))
}

// The bytes of a directory block: a file, an entry that isn't active, a directory, and five bytes of a fourth entry.
fn three_entries(rt: &impl Print, file: &[u8; 20], directory: &[u8; 40]) -> io::Result<[u8; 125]> {
    let mut d = [0u8; 125];
    let first = entry(rt, 5, 5, 15, file)?;
    let second = entry(rt, 5, 4, 15, file)?;
    buffer::copy_at(&mut d, 0, &first);
    buffer::copy_at(&mut d, 40, &second);
    buffer::copy_at(&mut d, 80, directory);
    d[124] = 9;
    Ok(d)
}

// A directory in a directory.
fn directories(rt: &impl Print, log: &mut [u8]) -> io::Result<()> {
    begin(rt, log, b"tree=directories")?;
    let file = put_tree(log, 1);
    let inner = put_two(rt, log)?;
    let e = entry(rt, 40, 7, 80, &inner)?;
    let page = [0u8; 64];
    read_file(rt, log, &page, &e, 40, 80)?;
    let d = three_entries(rt, &file, &e)?;
    walk_directories(rt, log, &d)
}

// Walks from a root above a directory block, also with allowances of the most, of too many and of none, and from a score that is no root's.
fn walk_directories(rt: &impl Print, log: &mut [u8], d: &[u8]) -> io::Result<()> {
    let directory = put(log, 2, d);
    let root = put_root(log, &directory);
    walk_thrice(rt, log, &root)?;
    let none = [0u8; 0];
    walk_with(rt, log, &none, &root, walk::MOST_ALLOWANCE)?;
    walk_with(rt, log, &none, &root, 1000001)?;
    walk_with(rt, log, &none, &root, 0)?;
    walk_with(rt, log, &none, &directory, 1000)?;
    Ok(())
}

// A tree of depth 2 with damage in a sector: leaf k is sector k, the pointer block above leaf 3k is sector 9 + k.
fn damaged(rt: &impl Print, log: &mut [u8], name: &[u8], sector: usize) -> io::Result<()>
    requires { sector < 127 }
{
    begin(rt, log, name)?;
    let top = put_tree(log, 2);
    let e = entry(rt, 5, 9, 45, &top)?;
    let directory = put(log, 2, &e);
    let root = put_short_root(log, &directory);
    damage(log, sector);
    let page = [0u8; 64];
    read_file(rt, log, &page, &e, 5, 45)?;
    walk_thrice(rt, log, &root)
}

// Reads and walks a tree of which the first five sectors are the log, and all others wait.
fn in_two_parts(rt: &impl Print, log: &[u8], entry: &[u8], root: &[u8; 20]) -> io::Result<()> {
    if 2560 <= log.len() {
        let page = [0u8; 64];
        read_parts(rt, &log[..2560], &log[2560..], &page, entry, 5, 45)?;
        walk_parts(rt, &log[..2560], &log[2560..], root)?;
    }
    Ok(())
}

// The same, and again with damage in a waiting sector.
fn in_two_parts_twice(
    rt: &impl Print,
    log: &mut [u8],
    entry: &[u8],
    root: &[u8; 20],
) -> io::Result<()> {
    in_two_parts(rt, log, entry, root)?;
    damage(log, 7);
    in_two_parts(rt, log, entry, root)
}

// A tree of depth 2 in two parts: leaf k is sector k, and the other blocks come behind.
fn waiting(rt: &impl Print, log: &mut [u8]) -> io::Result<()> {
    begin(rt, log, b"tree=waiting")?;
    let top = put_tree(log, 2);
    let e = entry(rt, 5, 9, 45, &top)?;
    let directory = put(log, 2, &e);
    let root = put_short_root(log, &directory);
    in_two_parts_twice(rt, log, &e, &root)
}

// n directories, each the only entry of the one before, and a file in the last.
fn nest(rt: &impl Print, log: &mut [u8], name: &[u8], n: usize) -> io::Result<()>
    requires { n ≤ 20 }
{
    begin(rt, log, name)?;
    let leaf = put_leaf(log, 0, 5);
    let mut e = entry(rt, 5, 1, 5, &leaf)?;
    for _ in 1..n {
        let s = put(log, 2, &e);
        e = entry(rt, 40, 3, 40, &s)?;
    }
    walk_above(rt, log, &e)
}

// Prints the answer at the offset 0.
fn read_once(rt: &impl Print, log: &[u8], entry: &[u8]) -> io::Result<()> {
    let page = [0u8; 64];
    let none = [0u8; 0];
    read_at(rt, log, &none, &page, entry, 0)?;
    Ok(())
}

// The same of an entry without its last byte.
fn read_cut(rt: &impl Print, log: &[u8], entry: &[u8]) -> io::Result<()> {
    if 0 < entry.len() {
        let n = entry.len() - 1;
        read_once(rt, log, &entry[..n])?;
    }
    Ok(())
}

// Entries that are ill-formed or inactive, and one of 39 bytes.
fn read_ill_formed(rt: &impl Print, log: &[u8], top: &[u8; 20]) -> io::Result<()> {
    read_once(rt, log, &entry(rt, 5, 5, 16, top)?)?;
    read_once(rt, log, &entry(rt, 0, 5, 15, top)?)?;
    read_once(rt, log, &entry(rt, 5, 37, 15, top)?)?;
    read_once(rt, log, &entry(rt, 5, 7, 15, top)?)?;
    read_once(rt, log, &entry(rt, 5, 4, 15, top)?)?;
    read_cut(rt, log, &entry(rt, 5, 5, 15, top)?)
}

// A directory block of a good entry and an ill-formed one.
fn ill_formed_second(rt: &impl Print, top: &[u8; 20]) -> io::Result<[u8; 80]> {
    let mut d = [0u8; 80];
    let first = entry(rt, 5, 5, 15, top)?;
    let second = entry(rt, 5, 5, 16, top)?;
    buffer::copy_at(&mut d, 0, &first);
    buffer::copy_at(&mut d, 40, &second);
    Ok(d)
}

// Ill-formed entries, read and walked.
fn ill_formed(rt: &impl Print, log: &mut [u8]) -> io::Result<()> {
    begin(rt, log, b"tree=ill_formed")?;
    let top = put_tree(log, 1);
    read_ill_formed(rt, log, &top)?;
    let d = ill_formed_second(rt, &top)?;
    walk_above(rt, log, &d)
}

// A leaf of 6 bytes under an entry whose leaves have at most 5.
fn long_leaf(rt: &impl Print, log: &mut [u8]) -> io::Result<()> {
    begin(rt, log, b"tree=long_leaf")?;
    let top = put_leaf(log, 0, 6);
    read_hole(rt, log, &entry(rt, 5, 1, 5, &top)?, 5)
}

// A pointer block of 30 bytes.
fn ragged_pointers(rt: &impl Print, log: &mut [u8]) -> io::Result<()> {
    begin(rt, log, b"tree=ragged_pointers")?;
    let leaf = put_leaf(log, 0, 5);
    let mut p = [0u8; 30];
    buffer::copy_at(&mut p, 0, &leaf);
    let top = put(log, 3, &p);
    read_hole(rt, log, &entry(rt, 5, 5, 10, &top)?, 10)
}

// A score that was never stored.
fn missing(rt: &impl Print, log: &mut [u8]) -> io::Result<()> {
    begin(rt, log, b"tree=missing")?;
    let leaf = put_leaf(log, 0, 5);
    let none = [85u8; 20];
    let top = put_three(log, &leaf, &none, &leaf);
    read_hole(rt, log, &entry(rt, 5, 5, 15, &top)?, 15)
}

// A block that was stored under another type: the tree is one level deeper than the entry says.
fn other_type(rt: &impl Print, log: &mut [u8]) -> io::Result<()> {
    begin(rt, log, b"tree=other_type")?;
    let top = put_tree(log, 2);
    read_hole(rt, log, &entry(rt, 5, 5, 15, &top)?, 15)
}

fn whole_files(rt: &impl Print, log: &mut [u8]) -> io::Result<()> {
    whole(rt, log, b"tree=depth_0", 0, 4)?;
    whole(rt, log, b"tree=depth_1", 1, 13)?;
    whole(rt, log, b"tree=depth_2", 2, 45)?;
    whole(rt, log, b"tree=depth_3", 3, 131)
}

fn holes(rt: &impl Print, log: &mut [u8]) -> io::Result<()> {
    zero_leaf(rt, log)?;
    short_pointers(rt, log)?;
    zero_top(rt, log)
}

fn damages_and_nests(rt: &impl Print, log: &mut [u8]) -> io::Result<()> {
    damaged(rt, log, b"tree=damaged_leaf", 4)?;
    damaged(rt, log, b"tree=damaged_pointer", 10)?;
    nest(rt, log, b"tree=nest_16", 16)?;
    nest(rt, log, b"tree=nest_17", 17)
}

fn refusals(rt: &impl Print, log: &mut [u8]) -> io::Result<()> {
    ill_formed(rt, log)?;
    long_leaf(rt, log)?;
    ragged_pointers(rt, log)?;
    missing(rt, log)?;
    other_type(rt, log)
}

fn trees(rt: &impl Print, log: &mut [u8]) -> io::Result<()> {
    wide_leaf(rt, log)?;
    short_leaf(rt, log)?;
    whole_files(rt, log)?;
    holes(rt, log)?;
    directories(rt, log)?;
    waiting(rt, log)?;
    damages_and_nests(rt, log)?;
    refusals(rt, log)
}

// A log of 127 sectors.
fn main(rt: HostRuntime) -> io::Result<()> {
    let mut space = [0u8; 65024];
    trees(&rt, &mut space)
}
