// A board as a diagram in text, from rank 8 down, with the squares of a move marked.
ghost use Rattle.std.specs.Prelude.{◌≡◌, ◌<◌, ◌+◌, ◌≤◌, length};
ghost use Rattle.laws.specs.Boards.{men_at};
ghost use Rattle.output.specs.Appending.{Adds};
ghost use Rattle.diagram.specs.Diagrams.{shown_as, mark_at, square_text, squares_text, rank_text, ranks_text, diagram_of};
ghost use Rattle.diagram.specs.Diagrams.{drawing_of};

use super::Drawing;
use board::RetractableBoard;

// The letter of the man on a square, a point where none stands.
fn letter(d: Drawing, k: u8) -> u8
    requires { k < 64 }
    ensures { result ≡ shown_as (men_at d.pieces d.colors k) }
{
    let pieces = d.pieces;
    let colors = d.colors;
    let letter = men_field::inner::letter_at(pieces, colors, k);
    if letter == 0 { b'.' } else { letter }
}

// What stands beside a square: one mark where the man came from, another where it went to.
fn mark(d: Drawing, k: u8, came: u8, went: u8) -> u8
    ensures { result ≡ mark_at d k came went }
{
    if k == d.from {
        return came;
    }
    if k == d.to {
        return went;
    }
    b' '
}

fn square(d: Drawing, k: u8) -> [u8; 3]
    requires { k < 64 }
    ensures { result ≡ square_text d k }
{
    let left = mark(d, k, b'[', b'(');
    let right = mark(d, k, b']', b')');
    [left, letter(d, k), right]
}

fn put_square(out: &mut [u8], len: usize, d: Drawing, k: u8) -> usize
    requires { k < 64 }
    ensures { Adds out.old len (square_text d k) result out.new }
{
    let bytes = square(d, k);
    words::inner::put(out, len, &bytes)
}

// The eight squares of a rank.
fn put_squares(out: &mut [u8], len: usize, d: Drawing, rank: u8) -> usize
    requires { (rank < 8) × (len + 24 ≤ length out.old) }
    ensures { Adds out.old len (squares_text d rank) result out.new }
{
    let mut at = len;
    for file in 0..8 {
        at = put_square(out, at, d, 8 * rank + file);
    }
    at
}

fn put_rank(out: &mut [u8], len: usize, d: Drawing, rank: u8) -> usize
    requires { (rank < 8) × (len + 29 ≤ length out.old) }
    ensures { Adds out.old len (rank_text d rank) result out.new }
{
    let head = [b'1' + rank, b' ', b'|'];
    let a = words::inner::put(out, len, &head);
    let b = put_squares(out, a, d, rank);
    words::inner::put(out, b, b"|\n")
}

fn put_ranks(out: &mut [u8], len: usize, d: Drawing) -> usize
    requires { len + 232 ≤ length out.old }
    ensures { Adds out.old len (ranks_text d) result out.new }
{
    let mut at = len;
    for rank in (0..8).rev() {
        at = put_rank(out, at, d, rank);
    }
    at
}

fn put_diagram(out: &mut [u8], len: usize, d: Drawing) -> usize
    requires { len + 317 ≤ length out.old }
    ensures { Adds out.old len (diagram_of d) result out.new }
{
    let top = words::inner::put(out, len, b"  +------------------------+\n");
    let men = put_ranks(out, top, d);
    let bottom = words::inner::put(out, men, b"  +------------------------+\n");
    words::inner::put(out, bottom, b"    a  b  c  d  e  f  g  h\n")
}

// A board's diagram, two of its squares marked.
pub fn put_board(out: &mut [u8], len: usize, b: RetractableBoard, from: u8, to: u8) -> usize
    requires { len + 317 ≤ length out.old }
    ensures { Adds out.old len (diagram_of (drawing_of b from to)) result out.new }
{
    let pieces = b.pieces;
    let colors = b.colors;
    put_diagram(
        out,
        len,
        Drawing {
            pieces,
            colors,
            from,
            to,
        },
    )
}
