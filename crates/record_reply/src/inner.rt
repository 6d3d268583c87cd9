// The record of a board that its gate let pass.
ghost use Rattle.reply.specs.Replies.{Shows};
ghost use Rattle.record_reply.specs.Answers.{state_number, record_text};

use board::RetractableBoard;
use records::Unwritten;

// The record and a newline, or 16 where the state is unknown.
pub fn put_record(b: RetractableBoard, half: u16, full: u16, out: &mut [u8; 196608]) -> usize
    ensures { Shows (record_text (state_number b) b half full) result out.old out.new }
{
    let w = records::inner::write(b, half, full, out);
    match w {
        Ok(n) => output::put_bytes(out, n, b"\n").unwrap_or(n),
        Err(unwritten) => match unwritten {
            Unwritten::Room(_) => 0,
            Unwritten::Refused(why) => reply::inner::put_number(records::number(why), out),
        },
    }
}
