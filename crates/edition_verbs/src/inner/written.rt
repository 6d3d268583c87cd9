// What a record says, and the record of a board.
ghost use Rattle.puts.specs.inner.Growing.{Grows};

use board::RetractableBoard;
use records::{Record, Unwritten, Why};
use refusal::Refusal;

// The text and both counters, tabs between.
pub(super) fn put_read(r: Result<Record, Why>, out: &mut [u8; 65536]) -> usize
    ensures { Grows 0 result }
{
    match r {
        Err(why) => puts::inner::refused_by(out, 0, records::number(why)),
        Ok(record) => {
            let text = board_field::inner::put_text(record.board, out, 0);
            let half = put_counter(out, text, record.half);
            put_counter(out, half, record.full)
        }
    }
}

fn put_counter(out: &mut [u8; 65536], len: usize, x: u16) -> usize
    ensures { Grows len result }
{
    let a = puts::inner::bytes(out, len, b"\t");
    puts::inner::number(out, a, x as u64)
}

pub(super) fn put_record(b: RetractableBoard, half: u16, full: u16, out: &mut [u8; 65536]) -> usize
    ensures { Grows 0 result }
{
    let mut record = [0u8; 96];
    let w = records::write(b, half, full, &mut record);
    match w {
        Ok(n) => puts::inner::front(out, 0, &record, n),
        Err(Unwritten::Room(_)) => puts::inner::refused(Refusal::Room, out),
        Err(Unwritten::Refused(why)) => puts::inner::refused_by(out, 0, records::number(why)),
    }
}
