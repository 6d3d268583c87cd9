// A retraction in words.
ghost use Rattle.std.specs.Prelude.{◌≡◌, ◌++◌, ◌+◌, ◌≤◌, length};
ghost use Rattle.geometry.specs.Colors.{opp};
ghost use Rattle.output.specs.Appending.{Adds};
ghost use Rattle.rows.specs.Rows.{decimal_of};
ghost use Rattle.men_field.specs.Placement.{square_name};
ghost use Rattle.words.specs.Words.{side_name, name_of, way_text, passes, files_apart, castles, deed_text, becoming_text, verdict_text, moved_kind, subject_text, words_of, source_kind};

use board::RetractableBoard;
use laws::{ChessRetraction, Color};

// Bytes behind the first `len`.
pub fn put(out: &mut [u8], len: usize, bytes: &[u8]) -> usize
    ensures { Adds out.old len bytes.now result out.new }
{
    output::put_bytes(out, len, bytes).unwrap_or(len)
}

fn put_number(out: &mut [u8], len: usize, x: u64) -> usize
    ensures { Adds out.old len (decimal_of x) result out.new }
{
    output::put_decimal(out, len, x).unwrap_or(len)
}

// Words, and a number of at most 20 digits behind them.
pub fn put_counted(out: &mut [u8], len: usize, words: &[u8], x: u64) -> usize
    requires { len + length words.now + 20 ≤ length out.old }
    ensures { Adds out.old len (words.now ++ decimal_of x) result out.new }
{
    let a = put(out, len, words);
    put_number(out, a, x)
}

pub fn put_side(out: &mut [u8], len: usize, c: Color) -> usize
    ensures { Adds out.old len (side_name c) result out.new }
{
    match c {
        Color::White => put(out, len, b"White"),
        Color::Black => put(out, len, b"Black"),
    }
}

// The name of the kind with a number.
fn put_name(out: &mut [u8], len: usize, kind: u8) -> usize
    ensures { Adds out.old len (name_of kind) result out.new }
{
    match kind {
        1 => put(out, len, b"pawn"),
        2 => put(out, len, b"knight"),
        3 => put(out, len, b"bishop"),
        4 => put(out, len, b"rook"),
        5 => put(out, len, b"queen"),
        6 => put(out, len, b"king"),
        _ => put(out, len, b"man"),
    }
}

fn put_square(out: &mut [u8], len: usize, sq: u8) -> usize
    ensures { Adds out.old len (square_name sq) result out.new }
{
    let name = [b'a' + sq % 8, b'1' + sq / 8];
    put(out, len, &name)
}

// `1. White's pawn`, 36 bytes at most.
fn put_subject(out: &mut [u8], len: usize, n: u64, c: Color, kind: u8) -> usize
    requires { len + 36 ≤ length out.old }
    ensures { Adds out.old len (subject_text n c kind) result out.new }
{
    let number = put_number(out, len, n);
    let point = put(out, number, b". ");
    let side = put_side(out, point, c);
    let of = put(out, side, b"'s ");
    put_name(out, of, kind)
}

fn put_way(out: &mut [u8], len: usize, r: ChessRetraction) -> usize
    requires { len + 14 ≤ length out.old }
    ensures { Adds out.old len (way_text r) result out.new }
{
    let a = put(out, len, b" from ");
    let b = put_square(out, a, r.target);
    let c = put(out, b, b" to ");
    put_square(out, c, r.source)
}

// A pawn that changes its file.
fn is_passant(kind: u8, r: ChessRetraction) -> bool
    ensures { result ≡ passes kind r }
{
    (kind == 1) & (r.source % 8 != r.target % 8)
}

// How many files two squares are apart.
fn files_apart(s: u8, t: u8) -> u8
    ensures { result ≡ files_apart s t }
{
    let a = s % 8;
    let b = t % 8;
    if a < b { b - a } else { a - b }
}

// A king that goes further than to the next file.
fn is_castling(kind: u8, r: ChessRetraction) -> bool
    ensures { result ≡ castles kind r }
{
    (kind == 6) & (1 < files_apart(r.source, r.target))
}

fn put_deed(out: &mut [u8], len: usize, kind: u8, r: ChessRetraction) -> usize
    requires { len + 19 ≤ length out.old }
    ensures { Adds out.old len (deed_text kind r) result out.new }
{
    if r.uncaptured > 0 {
        let a = put(out, len, b", taking a ");
        return put_name(out, a, r.uncaptured);
    }
    if is_passant(kind, r) {
        return put(out, len, b", taking en passant");
    }
    if is_castling(kind, r) {
        return put(out, len, b", castling");
    }
    len
}

fn put_becoming(out: &mut [u8], len: usize, kind: u8, r: ChessRetraction) -> usize
    requires { len + 19 ≤ length out.old }
    ensures { Adds out.old len (becoming_text kind r) result out.new }
{
    if r.unpromotion {
        let a = put(out, len, b", becoming a ");
        return put_name(out, a, kind);
    }
    len
}

fn put_verdict(out: &mut [u8], len: usize, strict: bool) -> usize
    ensures { Adds out.old len (verdict_text strict) result out.new }
{
    if strict {
        return put(out, len, b": strict\n");
    }
    put(out, len, b": not strict\n")
}

// The kind that moved: a pawn before an un-promotion.
fn moved(kind: u8, r: ChessRetraction) -> u8
    ensures { result ≡ moved_kind kind r }
{
    if r.unpromotion { 1 } else { kind }
}

// The number of the kind on the source today.
fn source_kind(b: RetractableBoard, r: ChessRetraction) -> u8
    ensures { result ≡ source_kind b r }
{
    let pieces = b.pieces;
    let colors = b.colors;
    men::inner::man_at(pieces, colors, r.source) / 2
}

// The whole line of a retraction, the n-th: 101 bytes at most.
pub fn put_words(
    out: &mut [u8],
    len: usize,
    n: u64,
    b: RetractableBoard,
    r: ChessRetraction,
    strict: bool,
) -> usize
    requires { len + 101 ≤ length out.old }
    ensures { Adds out.old len (words_of n (opp b.turn) (source_kind b r) r strict) result out.new }
{
    let turn = b.turn;
    let kind = source_kind(b, r);
    let a = put_subject(out, len, n, geometry::other(turn), moved(kind, r));
    let c = put_way(out, a, r);
    let d = put_deed(out, c, kind, r);
    let e = put_becoming(out, d, kind, r);
    put_verdict(out, e, strict)
}
