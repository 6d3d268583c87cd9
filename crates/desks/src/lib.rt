// The study table: boards under study of two desks, kept in one lent slice of words. docs/STUDY_TABLE.md has its layout.
#![tactic(auto)]

ghost use Rattle.std.specs.Prelude.{◌≡◌};
ghost use Rattle.desks.specs.Desks.{why_number, put, fetch, drop};
ghost use Rattle.desks.specs.Calls.{placed_answer, told_answer, fetched_answer, Answers, SetsUp};

use board::RetractableBoard;
use refusal::Refusal;

pub mod inner; // inner.rt: a desk's places in the slice

// Why a call is refused: 1 to 7 of a board, 20, 21, 22.
#[derive(Drop)]
pub enum Why {
    Board(Refusal),
    Desk,
    Quota,
    Absent,
}

// The number of a refusal.
pub fn number(why: Why) -> u8
    ensures { result ≡ why_number why }
{
    match why {
        Why::Board(r) => refusal::number(r),
        Why::Desk => 20,
        Why::Quota => 21,
        Why::Absent => 22,
    }
}

// An empty table with the quotas of the two desks: refusal 21.
pub fn set_up(table: &mut [u64], first: u64, second: u64) -> Result<(), Why>
    ensures { SetsUp table.old first second (told_answer result) table.new }
{
    if !inner::has_room(table.len(), first, second) {
        return Err(Why::Quota);
    }
    table[0] = first;
    table[1] = second;
    let n = (first + second) as usize;
    inner::clear(table, n);
    Ok(())
}

// A board goes to the desk's lowest free number, which is told: refusals 1 to 7, 20, 21.
pub fn put(table: &mut [u64], desk: u8, b: RetractableBoard) -> Result<usize, Why>
    ensures { Answers table.old desk (put b) (placed_answer result) table.new }
{
    let judged = b.judge();
    let v = judged.verdict;
    let (first, quota) = inner::stand_behind(v, table, desk)?;
    inner::put_at(table, first, quota, b)
}

// The board with a desk's number: refusals 20, 21, 22, then 1 to 7 of what is found.
pub fn fetch(table: &[u64], desk: u8, number: usize) -> Result<RetractableBoard, Why>
    ensures { Answers table.now desk (fetch number) (fetched_answer result) table.now }
{
    let (first, quota) = inner::stand(table, desk)?;
    inner::fetch_at(table, first, quota, number)
}

// A desk's number is free again: refusals 20, 21, 22.
pub fn drop(table: &mut [u64], desk: u8, number: usize) -> Result<(), Why>
    ensures { Answers table.old desk (drop number) (told_answer result) table.new }
{
    let (first, quota) = inner::stand(table, desk)?;
    inner::drop_at(table, first, quota, number)
}
