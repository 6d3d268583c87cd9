// `desks TAB size TAB call call .. TAB board TAB board ..`: calls of two desks in their order, on a lent table of `size` words, each 9 at first. Each
// answer has a tab behind it; then, in brackets, what the table holds.
ghost use Rattle.std.specs.Prelude.{◌≤◌};
ghost use Rattle.puts.specs.inner.Growing.{Grows};

use board::RetractableBoard;
use desks::Why;

// The answer to a line of this verb, 0 bytes to any other.
pub fn answer(line: &[u8], out: &mut [u8; 65536]) -> usize
    ensures { Grows 0 result }
{
    if !fields::inner::starts(line, b"desks\t") {
        return 0;
    }
    let n = size(line);
    let mut table = [9u64; 1024];
    put_run(line, &mut table[..n], out)
}

// At most 1,024 words.
fn size(line: &[u8]) -> usize
    ensures { result ≤ 1024 }
{
    let x = fields::inner::number(line, fields::inner::after(line, 0, b'\t'));
    if x > 1024 { 1024 } else { x as usize }
}

fn put_run(line: &[u8], table: &mut [u64], out: &mut [u8; 65536]) -> usize
    ensures { Grows 0 result }
{
    let n = put_calls(line, table, out);
    put_words(table, out, n)
}

// The calls stand between the second tab and the third, spaces between.
fn put_calls(line: &[u8], table: &mut [u64], out: &mut [u8; 65536]) -> usize
    ensures { Grows 0 result }
{
    let mut len = 0;
    let from = fields::inner::past(line, 0, b'\t', 2);
    let mut begins = true;
    for i in from..line.len() {
        let b = line[i];
        if b == b'\t' {
            return len;
        }
        len = put_begun(begins & (b != b' '), b, line, i + 1, table, out, len);
        begins = b == b' ';
    }
    len
}

// A call and a tab where one begins.
fn put_begun(
    begins: bool,
    letter: u8,
    line: &[u8],
    at: usize,
    table: &mut [u64],
    out: &mut [u8; 65536],
    len: usize,
) -> usize
    ensures { Grows len result }
{
    if !begins {
        return len;
    }
    let n = put_call(letter, line, at, table, out, len);
    puts::inner::bytes(out, n, b"\t")
}

// A letter, and two numbers from `at` on: set up, put, fetch, drop, or a word written by hand.
fn put_call(
    letter: u8,
    line: &[u8],
    at: usize,
    table: &mut [u64],
    out: &mut [u8; 65536],
    len: usize,
) -> usize
    ensures { Grows len result }
{
    let x = fields::inner::number(line, at);
    let y = fields::inner::number(line, fields::inner::after(line, at, b','));
    let desk = fields::inner::decimal(line, at);
    match letter {
        b's' => put_told(desks::set_up(table, x, y), b"set", out, len),
        b'p' => put_board(line, board_at(line, y), table, desk, out, len),
        b'f' => put_fetched(desks::fetch(table, desk, y as usize), out, len),
        b'd' => put_told(desks::drop(table, desk, y as usize), b"dropped", out, len),
        b'w' => put_written(written(table, x, y), out, len),
        _ => puts::inner::bytes(out, len, b"unknown call"),
    }
}

// The place of the line's n-th board, or the line's end.
fn board_at(line: &[u8], n: u64) -> usize {
    if n == 0 {
        return line.len();
    }
    if n > 512 {
        return line.len();
    }
    fields::inner::past(line, 0, b'\t', n as usize + 2)
}

// A desk puts a board: a text, or `=` and the fields of a board of any values.
fn put_board(
    line: &[u8],
    at: usize,
    table: &mut [u64],
    desk: u8,
    out: &mut [u8; 65536],
    len: usize,
) -> usize
    ensures { Grows len result }
{
    if fields::inner::byte(line, at) == b'=' {
        let b = board_field::inner::untested(line, fields::inner::after(line, at, b'='));
        return put_placed(desks::put(table, desk, b), out, len);
    }
    let t = tables::between_table();
    let today = board_field::inner::read_with(&t, line, at);
    let v = today.verdict;
    match v {
        Err(r) => puts::inner::refused_by(out, len, refusal::number(r)),
        Ok(()) => {
            let b = today.board;
            put_placed(desks::put(table, desk, b), out, len)
        }
    }
}

fn put_refused(why: Why, out: &mut [u8; 65536], len: usize) -> usize
    ensures { Grows len result }
{
    puts::inner::refused_by(out, len, desks::number(why))
}

fn put_placed(p: Result<usize, Why>, out: &mut [u8; 65536], len: usize) -> usize
    ensures { Grows len result }
{
    match p {
        Ok(n) => puts::inner::number(out, len, n as u64),
        Err(why) => put_refused(why, out, len),
    }
}

fn put_told(t: Result<(), Why>, done: &[u8], out: &mut [u8; 65536], len: usize) -> usize
    ensures { Grows len result }
{
    match t {
        Ok(()) => puts::inner::bytes(out, len, done),
        Err(why) => put_refused(why, out, len),
    }
}

fn put_fetched(f: Result<RetractableBoard, Why>, out: &mut [u8; 65536], len: usize) -> usize
    ensures { Grows len result }
{
    match f {
        Ok(b) => board_field::inner::put_text(b, out, len),
        Err(why) => put_refused(why, out, len),
    }
}

// A stranger's word, where the table has its place.
fn written(table: &mut [u64], at: u64, x: u64) -> bool {
    let i = at as usize;
    if i < table.len() {
        table[i] = x;
        return true;
    }
    false
}

fn put_written(done: bool, out: &mut [u8; 65536], len: usize) -> usize
    ensures { Grows len result }
{
    if done {
        puts::inner::bytes(out, len, b"written")
    } else {
        puts::inner::bytes(out, len, b"no word")
    }
}

// The words in brackets, single spaces between.
fn put_words(table: &[u64], out: &mut [u8; 65536], len: usize) -> usize
    ensures { Grows len result }
{
    let mut n = puts::inner::bytes(out, len, b"[");
    for (i, w) in table.iter().enumerate() {
        n = puts::inner::member(out, n, i, *w);
    }
    puts::inner::bytes(out, n, b"]")
}
