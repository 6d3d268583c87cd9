// What a board's methods tell, put into an answer.
ghost use Rattle.puts.specs.inner.Growing.{Grows};

use board::{AttackTold, Boarded, PieceTold};
use laws::Piece;

// The text, the checkers and the pins.
pub(super) fn put_unmade(b: Boarded, out: &mut [u8; 65536]) -> usize
    ensures { Grows 0 result }
{
    let n = board_field::inner::put_boarded(b, out);
    let v = b.verdict;
    match v {
        Err(_) => n,
        Ok(()) => {
            let board = b.board;
            let c = puts::inner::next_set(out, n, board.checkers);
            puts::inner::next_set(out, c, board.pinned)
        }
    }
}

// The kind's letter, or `.`
pub(super) fn put_piece(told: PieceTold, out: &mut [u8; 65536]) -> usize
    ensures { Grows 0 result }
{
    let p = told.answer;
    match p {
        Ok(None) => puts::inner::bytes(out, 0, b"."),
        Ok(Some(k)) => puts::inner::bytes(out, 0, &[letter(k)]),
        Err(r) => puts::inner::refused(r, out),
    }
}

fn letter(k: Piece) -> u8 {
    match k {
        Piece::Pawn => b'P',
        Piece::Knight => b'N',
        Piece::Bishop => b'B',
        Piece::Rook => b'R',
        Piece::Queen => b'Q',
        Piece::King => b'K',
    }
}

pub(super) fn put_attacked(told: AttackTold, out: &mut [u8; 65536]) -> usize
    ensures { Grows 0 result }
{
    let a = told.answer;
    match a {
        Ok(true) => puts::inner::told(out, true),
        Ok(false) => puts::inner::told(out, false),
        Err(r) => puts::inner::refused(r, out),
    }
}
