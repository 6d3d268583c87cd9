// What a person gets: the answer to a six-field record read in an edition, and a four-field text of ours sent out as a record.
#![tactic(auto)]

ghost use Rattle.reply.specs.Replies.{Shows};
ghost use Rattle.record_reply.specs.Answers.{edition_text, Replies, Sends};

use laws::Edition;

pub mod inner; // inner.rt: the record of a board, and a newline

// `edition A` or `edition B`; the bytes behind it stay.
pub fn put_edition(edition: Edition, out: &mut [u8; 196608]) -> usize
    ensures { Shows (edition_text edition) result out.old out.new }
{
    match edition {
        Edition::A => output::put_bytes(out, 0, b"edition A\n").unwrap_or(0),
        Edition::B => output::put_bytes(out, 0, b"edition B\n").unwrap_or(0),
    }
}

// The first bytes of `out` are the answer to a record, read in an edition; answers how many. The bytes behind it stay, and so do the slots that no list needs.
pub fn reply(
    line: &[u8],
    edition: Edition,
    listed: &mut [u16; 8192],
    strict: &mut [u16; 8192],
    out: &mut [u8; 196608],
) -> usize
    ensures { Replies edition line.now result out.old out.new listed.old listed.new strict.old strict.new }
{
    let t = tables::between_table();
    match records::inner::read(&t, line, edition) {
        Err(why) => reply::inner::put_number(records::number(why), out),
        Ok(r) => reply::inner::put_board(&t, r.board, listed, strict, out),
    }
}

// A text of edition A as a record of edition B, with any counters, or its refusal; answers how many bytes of `out` that takes. The bytes behind it stay.
pub fn send(text: &[u8], half: u16, full: u16, out: &mut [u8; 196608]) -> usize
    ensures { Sends text.now half full result out.old out.new }
{
    let t = tables::between_table();
    let r = text::inner::read(&t, text, Edition::A);
    let v = r.verdict;
    match v {
        Err(why) => reply::put_refused(why, out),
        Ok(()) => {
            let board = r.board;
            let other = turning::inner::turned(board);
            inner::put_record(other, half, full, out)
        }
    }
}
