// Six-field records: a board and its two counters, read and written. What a record is stands in specs/Form and, in the request's own words, in
// specs/Grammar, over what record_fields says of its counters and of the square passed over; what the entries answer in specs/Entries.
#![tactic(auto)]

ghost use Rattle.std.specs.Prelude.{◌≡◌};
ghost use Rattle.board.specs.Gate.{board_tests};
ghost use Rattle.records.specs.Entries.{why_number, Reads, record_on, written_says, WritesRecord};

use board::RetractableBoard;
use laws::Edition;
use refusal::Refusal;

pub mod inner; // inner.rt: the answer to a record, and the record in bytes

// Why a record is not read, or not written: a refusal of document 01, 15, 16.
#[derive(Drop)]
pub enum Why {
    Base(Refusal),
    Counter,
    Unknown,
}

// A board from a record, with its counters.
#[derive(Drop)]
pub struct Record {
    pub board: RetractableBoard,
    pub half: u16,
    pub full: u16,
}

// Why a record is not written into a lent slice: how many bytes are needed, or its refusal.
#[derive(Drop)]
pub enum Unwritten {
    Room(usize),
    Refused(Why),
}

// The number of a refusal.
pub fn number(why: Why) -> u8
    ensures { result ≡ why_number why }
{
    match why {
        Why::Base(r) => refusal::number(r),
        Why::Counter => 15,
        Why::Unknown => 16,
    }
}

// A board and its counters from a record, which the caller reads in an edition: refusal 14, then 15, then 1 to 6.
pub fn read(text: &[u8], edition: Edition) -> Result<Record, Why>
    ensures { Reads edition text.now result }
{
    let t = tables::between_table();
    inner::read(&t, text, edition)
}

// A board and its counters as a record, into a lent slice: refusals 1 to 7, then 16, then 13. Only a whole record is written, with any counters.
pub fn write(b: RetractableBoard, half: u16, full: u16, out: &mut [u8]) -> Result<usize, Unwritten>
    ensures { WritesRecord (board_tests b) b.passant (record_on b half full) out.old (written_says result) out.new }
{
    let t = tables::between_table();
    let v = board::inner::gate(&t, b);
    match v {
        Err(r) => Err(Unwritten::Refused(Why::Base(r))),
        Ok(()) => inner::write(b, half, full, out),
    }
}
