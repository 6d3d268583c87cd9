// The answer to a record, and the record in bytes.
ghost use Rattle.std.specs.Prelude.{◌≡◌, [], take};
ghost use Rattle.io.specs.Counts.{IsPrefixLen};
ghost use Rattle.geometry.specs.Lines.{IsBetween};
ghost use Rattle.refusal.specs.Said.{Writes};
ghost use Rattle.records.specs.Form.{record_of};
ghost use Rattle.records.specs.Entries.{Reads, record_on, written_says, WritesRecord};
ghost use Rattle.records.specs.inner.Answering.{with_state, record_said, known_said, answer_of};

use super::{Record, Unwritten, Why};
use board::RetractableBoard;
use laws::{Edition, EnPassantFlag, Position};
use position_text::{Form, Raw};
use record_fields::inner::{count, in_range, is_known, last, passed_state, pawn_state};
use refusal::Refusal;

fn with_state(p: Position, passant: EnPassantFlag) -> Position
    ensures { result ≡ with_state p passant }
{
    Position { passant, ..p }
}

// 15, and then 1 to 6.
fn ranged(t: &[u64; 4096], p: Position, half: u16, full: u16) -> Result<Record, Why>
    requires { IsBetween t.now }
    ensures { result ≡ record_said p half full }
{
    if !in_range(half, full) {
        return Err(Why::Counter);
    }
    let b = board::inner::board_from(t, p);
    b.verdict.map_err(Why::Base)?;
    Ok(Record {
        board: b.board,
        half,
        full,
    })
}

// The same, behind 14 where no pawn passed over what is named.
#[tactic(auto, using(crate::proofs::Giving::not_known, crate::proofs::Giving::is_known_lem))]
fn known(t: &[u64; 4096], p: Position, half: u16, full: u16) -> Result<Record, Why>
    requires { IsBetween t.now }
    ensures { result ≡ known_said p half full }
{
    let pawn = p.passant;
    if !is_known(pawn) {
        return Err(Why::Base(Refusal::Text));
    }
    ranged(t, p, half, full)
}

// What is answered to a text whose four fields are `raw` and whose counters are read as `half` and `full`.
#[tactic(auto, using(crate::proofs::Answering::over_half))]
fn answer(t: &[u64; 4096], raw: Raw, half: u16, full: u16) -> Result<Record, Why>
    requires { IsBetween t.now }
    ensures { result ≡ answer_of raw half full }
{
    if 10000 < half {
        return Err(Why::Base(Refusal::Text));
    }
    if 10000 < full {
        return Err(Why::Base(Refusal::Text));
    }
    let form = raw.form;
    match form {
        Form::OutOfForm => Err(Why::Base(Refusal::Text)),
        Form::InForm => {
            let p = raw.position;
            let passed = p.passant;
            let pawn = pawn_state(passed);
            known(t, with_state(p, pawn), half, full)
        }
    }
}

// A board and its counters from a record: it is cut at its last two spaces. `t` is the table of squares between, lent.
pub fn read(t: &[u64; 4096], text: &[u8], edition: Edition) -> Result<Record, Why>
    requires { IsBetween t.now }
    ensures { Reads edition text.now result }
{
    let n = text.len();
    let j = last(text, n);
    if j == 0 {
        return Err(Why::Base(Refusal::Text));
    }
    let k = j - 1;
    let i = last(text, k);
    if i == 0 {
        return Err(Why::Base(Refusal::Text));
    }
    let e = i - 1;
    let raw = position_text::inner::read_raw(&text[..e], edition);
    let half = count(&text[i..k]);
    let full = count(&text[j..]);
    answer(t, raw, half, full)
}

// The record of a position's fields, which 96 bytes hold; answers how many it has.
fn put_record(line: &mut [u8; 96], p: Position, half: u16, full: u16) -> usize
    ensures { IsPrefixLen result line.new × (take result line.new ≡ record_of p half full) }
{
    let pawn = p.passant;
    let passed = passed_state(pawn);
    let four = position_text::inner::line_of(with_state(p, passed));
    let bytes = four.bytes;
    let len = four.len;
    let fields = output::put_bytes(line, 0, &bytes[..len]).unwrap_or(0);
    let first = output::put_bytes(line, fields, b" ").unwrap_or(fields);
    let second = output::put_decimal(line, first, half as u64).unwrap_or(first);
    let third = output::put_bytes(line, second, b" ").unwrap_or(second);
    output::put_decimal(line, third, full as u64).unwrap_or(third)
}

// The record of a position's fields into a lent slice, whole or not at all.
fn put(p: Position, half: u16, full: u16, out: &mut [u8]) -> Result<usize, Unwritten>
    ensures { Writes [] (record_of p half full) out.old (written_says result) out.new }
{
    let mut line = [0u8; 96];
    let n = put_record(&mut line, p, half, full);
    let done = output::put_bytes(out, 0, &line[..n]);
    match done {
        Ok(k) => Ok(k),
        Err(k) => Err(Unwritten::Room(k)),
    }
}

// The record of any board into a lent slice: refusal 16, then 13.
pub fn write(b: RetractableBoard, half: u16, full: u16, out: &mut [u8]) -> Result<usize, Unwritten>
    ensures { WritesRecord [] b.passant (record_on b half full) out.old (written_says result) out.new }
{
    let passant = b.passant;
    if !is_known(passant) {
        return Err(Unwritten::Refused(Why::Unknown));
    }
    put(board::inner::position_of(b), half, full, out)
}
