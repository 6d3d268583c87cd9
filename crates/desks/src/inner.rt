// A desk's places in the lent slice.
ghost use Rattle.std.specs.Prelude.{◌≡◌, ◌+◌, ◌*◌, ◌≤◌, length};
ghost use Rattle.desks.specs.Desks.{put, fetch, drop, held, fetched_from, lowest};
ghost use Rattle.desks.specs.Layout.{base, room, fits, places_from};
ghost use Rattle.desks.specs.Calls.{placed_answer, told_answer, fetched_answer, cleared};
ghost use Rattle.desks.specs.inner.Within.{stand_of, stand_behind, AnswersAt};

use super::Why;
use board::RetractableBoard;
use refusal::Verdict;

// Words before the places, and words of a place.
const HEAD: usize = 2;

const PLACE: usize = place::WORDS;

// Room for the two quotas and their places, in a slice of n words.
pub fn has_room(n: usize, first: u64, second: u64) -> bool
    ensures { result ≡ room n first second }
{
    if n < HEAD {
        return false;
    }
    let places = ((n - HEAD) / PLACE) as u64;
    if places < first {
        return false;
    }
    second <= places - first
}

fn has_fit(table: &[u64]) -> bool
    ensures { result ≡ fits table.now }
{
    let n = table.len();
    if n < HEAD {
        return false;
    }
    has_room(n, table[0], table[1])
}

// Where the desk's places start, and how many they are: refusals 20, 21 as found.
pub fn stand(table: &[u64], desk: u8) -> Result<(usize, usize), Why>
    ensures { result ≡ stand_of table.now desk }
{
    if desk > 1 {
        return Err(Why::Desk);
    }
    if !has_fit(table) {
        return Err(Why::Quota);
    }
    let first = table[0] as usize;
    if desk == 0 {
        return Ok((0, first));
    }
    let second = table[1] as usize;
    Ok((first, second))
}

// The same behind 1 to 7 of a board.
pub fn stand_behind(v: Verdict, table: &[u64], desk: u8) -> Result<(usize, usize), Why>
    ensures { result ≡ stand_behind v table.now desk }
{
    match v {
        Err(w) => Err(Why::Board(w)),
        Ok(()) => stand(table, desk),
    }
}

// The lowest free one of n places, n where none is.
fn lowest(table: &[u64], first: usize, n: usize) -> usize
    requires { base (first + n) ≤ length table.now }
    ensures { result ≡ lowest (places_from table.now first n) }
{
    for i in 0..n {
        if table[(first + i) * PLACE + HEAD] == 0 {
            return i;
        }
    }
    n
}

// A board goes to the lowest free one of n places: 21.
pub fn put_at(table: &mut [u64], first: usize, n: usize, b: RetractableBoard) -> Result<usize, Why>
    requires { base (first + n) ≤ length table.old }
    ensures { AnswersAt table.old first n (put b) (placed_answer result) table.new }
{
    let i = lowest(table, first, n);
    if i < n {
        let w = place::inner::words_of(b);
        place::inner::store(table, (first + i) * PLACE + HEAD, w);
        return Ok(i);
    }
    Err(Why::Quota)
}

// 1 to 7 of a board that was found.
fn tested(b: RetractableBoard) -> Result<RetractableBoard, Why>
    ensures { fetched_answer result ≡ fetched_from (held b) }
{
    let judged = b.judge();
    let v = judged.verdict;
    let board = judged.board;
    match v {
        Err(r) => Err(Why::Board(r)),
        Ok(()) => Ok(board),
    }
}

// The board with a number among n places: 22, then 1 to 7.
pub fn fetch_at(
    table: &[u64],
    first: usize,
    n: usize,
    number: usize,
) -> Result<RetractableBoard, Why>
    requires { base (first + n) ≤ length table.now }
    ensures { AnswersAt table.now first n (fetch number) (fetched_answer result) table.now }
{
    if n <= number {
        return Err(Why::Absent);
    }
    let k = (first + number) * PLACE + HEAD;
    if table[k] == 0 {
        return Err(Why::Absent);
    }
    let w = place::inner::words_at(table, k);
    let b = place::inner::board_read(w);
    tested(b)
}

// A number among n places is free again: 22.
pub fn drop_at(table: &mut [u64], first: usize, n: usize, number: usize) -> Result<(), Why>
    requires { base (first + n) ≤ length table.old }
    ensures { AnswersAt table.old first n (drop number) (told_answer result) table.new }
{
    if n <= number {
        return Err(Why::Absent);
    }
    let k = (first + number) * PLACE + HEAD;
    if table[k] == 0 {
        return Err(Why::Absent);
    }
    table[k] = 0;
    Ok(())
}

// The marks of the first n places, off.
pub fn clear(table: &mut [u64], n: usize)
    requires { base n ≤ length table.old }
    ensures { table.new ≡ cleared table.old n }
{
    for i in 0..n {
        table[i * PLACE + HEAD] = 0;
    }
}
