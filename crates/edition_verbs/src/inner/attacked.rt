// Who attacks a square, gives check, or forbids a castling: the men's squares ascending with single spaces between, or a dash.
ghost use Rattle.puts.specs.inner.Growing.{Grows};

use super::Question;
use board::AttackersTold;
use castling::KingsWay;
use laws::Side;
use refusal::Refusal;

// `at` is the place of the text.
pub(super) fn asked(line: &[u8], at: usize) -> Option<Question> {
    let first = fields::inner::after(line, at, b'\t');
    if fields::inner::starts(line, b"attackers\t") {
        let color = fields::inner::turn(fields::inner::byte(
            line,
            fields::inner::after(line, first, b'\t'),
        ));
        return Some(Question::Attackers(fields::inner::decimal(line, first), color));
    }
    if fields::inner::starts(line, b"checkers\t") {
        return Some(Question::Checkers);
    }
    if fields::inner::starts(line, b"castling\t") {
        return Some(Question::Castling(side(fields::inner::byte(line, first))));
    }
    None
}

// `k` or `q`.
fn side(b: u8) -> Side {
    if b == b'k' { Side::Short } else { Side::Long }
}

// 64 squares have 191 bytes.
pub(super) fn put_squares(out: &mut [u8; 65536], len: usize, set: u64) -> usize
    ensures { Grows len result }
{
    let mut text = [0u8; 191];
    let n = square_names::inner::put_squares(&mut text, 0, set);
    puts::inner::front(out, len, &text, n)
}

pub(super) fn put_attackers(told: AttackersTold, out: &mut [u8; 65536]) -> usize
    ensures { Grows 0 result }
{
    match told.answer {
        Ok(men) => put_squares(out, 0, men),
        Err(r) => puts::inner::refused(r, out),
    }
}

// Out of, through and into, tabs between.
pub(super) fn put_castling(told: Result<KingsWay, Refusal>, out: &mut [u8; 65536]) -> usize
    ensures { Grows 0 result }
{
    match told {
        Ok(way) => {
            let home = put_squares(out, 0, way.home);
            let crossed = put_next(out, home, way.crossed);
            put_next(out, crossed, way.reached)
        }
        Err(r) => puts::inner::refused(r, out),
    }
}

fn put_next(out: &mut [u8; 65536], len: usize, set: u64) -> usize
    ensures { Grows len result }
{
    let a = puts::inner::bytes(out, len, b"\t");
    put_squares(out, a, set)
}
