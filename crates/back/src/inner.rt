// How a board goes back by a retraction: board.rs's `make_retraction_new`, statement by statement, on the board's sets, with checkers and
// pins worked afresh. The definitions that the functions meet are those of incremental/specs, beside the Rust.
ghost use Rattle.std.specs.Prelude.{◌≡◌, true, ◌<◌};
ghost use Rattle.geometry.specs.Lines.{IsBetween};
ghost use Rattle.laws.specs.Men.{numbered};
ghost use Rattle.laws.specs.Attacks.{checkers_of, pins_of};
ghost use Rattle.laws.specs.Acceptance.{kings_ok};
ghost use Rattle.laws.specs.Boards.{Clean, pos_of};
ghost use Rattle.incremental.specs.Moved.{xor_of, piece_on, opened_of, retraction_bb, stepped_of, uncaptured_of, is_uncastling, rights_stored, rooked_of, uncastled_of, is_passant_uncapture, reborn_of, rust_moved};
ghost use Rattle.incremental.specs.Found.{found_stored};

use laws::{Board, CastleRights, ChessRetraction, Color, EnPassantFlag, Piece};

// The squares between which a king castles, of either colour.
const CASTLE_MOVES: u64 = 6052837899185946708;

// The kind of the man on a square where one stands.
pub fn piece_at(b: Board, square: u8) -> Piece
    ensures { result ≡ piece_on b square }
{
    if squares::has(b.pieces[0] ^ b.pieces[1] ^ b.pieces[2], square) {
        if squares::has(b.pieces[0], square) {
            return Piece::Pawn;
        }
        if squares::has(b.pieces[1], square) {
            return Piece::Knight;
        }
        return Piece::Bishop;
    }
    if squares::has(b.pieces[3], square) {
        return Piece::Rook;
    }
    if squares::has(b.pieces[4], square) {
        return Piece::Queen;
    }
    Piece::King
}

fn retraction_bb(r: ChessRetraction) -> u64
    ensures { result ≡ retraction_bb r }
{
    squares::bit(r.source) ^ squares::bit(r.target)
}

fn is_uncastling(piece: Piece, r: ChessRetraction) -> bool
    ensures { result ≡ is_uncastling piece r }
{
    let bb = retraction_bb(r);
    (men::inner::piece_place(piece) == 5) & (bb & CASTLE_MOVES == bb)
}

// A pawn goes back to another file and no man reappears on its square: it captured en passant.
fn is_passant_uncapture(piece: Piece, r: ChessRetraction) -> bool
    ensures { result ≡ is_passant_uncapture piece r }
{
    (men::inner::piece_place(piece) == 0) & (r.uncaptured == 0) & (r.source % 8 != r.target % 8)
}

// Men of one kind and colour are added or removed.
fn xor(mut b: Board, piece: Piece, bb: u64, color: Color) -> Board
    ensures { result ≡ xor_of b piece bb color }
{
    let k = men::inner::piece_place(piece);
    let c = men::inner::color_place(color);
    b.pieces[k] = b.pieces[k] ^ bb;
    b.colors[c] = b.colors[c] ^ bb;
    b.combined = b.combined ^ bb;
    b
}

// The other side is to move; state, checkers and pins are not known yet.
fn opened(b: Board) -> Board
    ensures { result ≡ opened_of b }
{
    let today = b.turn;
    let turn = geometry::other(today);
    Board {
        turn,
        pinned: 0,
        checkers: 0,
        passant: EnPassantFlag::Any,
        ..b
    }
}

// The man goes back, as a pawn where it had promoted.
fn stepped(mut b: Board, piece: Piece, r: ChessRetraction, color: Color) -> Board
    ensures { result ≡ stepped_of b piece r color }
{
    if r.unpromotion {
        b = xor(b, piece, squares::bit(r.source), color);
        return xor(b, Piece::Pawn, squares::bit(r.target), color);
    }
    xor(b, piece, retraction_bb(r), color)
}

// The uncaptured man, by its number, stands where the other left.
fn uncaptured(b: Board, kind: u8, bb: u64, turn: Color) -> Board
    ensures { result ≡ uncaptured_of b (numbered turn kind) bb }
{
    match kind {
        0 => b,
        1 => xor(b, Piece::Pawn, bb, turn),
        2 => xor(b, Piece::Knight, bb, turn),
        3 => xor(b, Piece::Bishop, bb, turn),
        4 => xor(b, Piece::Rook, bb, turn),
        _ => xor(b, Piece::Queen, bb, turn),
    }
}

// A colour has other castling rights.
fn with_rights(b: Board, color: Color, rights: CastleRights) -> Board
    ensures { result ≡ rights_stored b color rights }
{
    match color {
        Color::White => Board { white: rights, ..b },
        Color::Black => Board { black: rights, ..b },
    }
}

// The castled rook goes back from one file to the other, and the right returns.
fn rooked(mut b: Board, color: Color, f: u8, g: u8, rights: CastleRights) -> Board
    requires { (f < 8) × (g < 8) }
    ensures { result ≡ rooked_of b color f g rights }
{
    let castled = geometry::inner::home_square(color, f);
    let corner = geometry::inner::home_square(color, g);
    let bb = squares::bit(castled) ^ squares::bit(corner);
    b = xor(b, Piece::Rook, bb, color);
    with_rights(b, color, rights)
}

// Castling is undone where the king castled.
fn uncastled(b: Board, piece: Piece, r: ChessRetraction, color: Color) -> Board
    ensures { result ≡ uncastled_of b piece r color }
{
    if is_uncastling(piece, r) {
        if r.source % 8 == 6 {
            return rooked(b, color, 5, 7, CastleRights::KingSide);
        }
        if r.source % 8 == 2 {
            return rooked(b, color, 3, 0, CastleRights::QueenSide);
        }
    }
    b
}

// A pawn that was captured en passant reappears, and its square is named.
fn reborn(mut b: Board, piece: Piece, r: ChessRetraction, color: Color, turn: Color) -> Board
    requires { r.source < 64 }
    ensures { result ≡ reborn_of b piece r color turn }
{
    if is_passant_uncapture(piece, r) {
        let square = geometry::inner::ubackward(color, r.source);
        b = Board {
            passant: EnPassantFlag::Some(square),
            ..b
        };
        return xor(b, Piece::Pawn, squares::bit(square), turn);
    }
    b
}

// Men, turn, rights and state before the retraction; checkers and pins are still to be found.
pub fn moved(mut b: Board, r: ChessRetraction) -> Board
    requires { r.source < 64 }
    ensures { result ≡ rust_moved b r }
{
    let turn = b.turn;
    let color = geometry::other(turn);
    let piece = piece_at(b, r.source);
    b = opened(b);
    b = stepped(b, piece, r, color);
    b = uncaptured(b, r.uncaptured, squares::bit(r.source), turn);
    b = uncastled(b, piece, r, color);
    reborn(b, piece, r, color, turn)
}

// Checkers and pins of clean men, worked afresh.
pub fn searched(t: &[u64; 4096], mut b: Board) -> Board
    requires { IsBetween t.now × Clean b.pieces b.colors × (kings_ok (pos_of b).men ≡ true) }
    ensures { result ≡ found_stored b (checkers_of (pos_of b).men b.turn) (pins_of (pos_of b).men b.turn) }
{
    let pieces = b.pieces;
    let colors = b.colors;
    let turn = b.turn;
    b.checkers = pins::inner::checkers(pieces, colors, turn);
    b.pinned = pins::inner::pins(t, pieces, colors, turn);
    b
}
