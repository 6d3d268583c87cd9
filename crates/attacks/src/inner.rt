// The attackers of a square (the Rust's `is_attacked`, as a set).
ghost use Rattle.std.specs.Prelude.{◌≡◌, ◌<◌};
ghost use Rattle.laws.specs.Attacks.{attackers_of, attacked};
ghost use Rattle.laws.specs.Boards.{men_at, Clean};
ghost use Rattle.attacks.specs.inner.Meeting.{met_of};

use laws::Color;

// Each kind met with the squares that it attacks from.
pub fn met(
    pieces: [u64; 6],
    own: u64,
    pawn: u64,
    knight: u64,
    diagonal: u64,
    straight: u64,
    king: u64,
) -> u64
    ensures { result ≡ met_of pieces own pawn knight diagonal straight king }
{
    own & (pieces[0] & pawn
        | pieces[1] & knight
        | (pieces[2] | pieces[4]) & diagonal
        | (pieces[3] | pieces[4]) & straight
        | pieces[5] & king)
}

// The men of a colour that attack a square.
pub fn attackers(pieces: [u64; 6], colors: [u64; 2], sq: u8, color: Color) -> u64
    requires { Clean pieces colors × (sq < 64) }
    ensures { result ≡ attackers_of (men_at pieces colors) color sq }
{
    let c = men::inner::color_place(color);
    let occ = men::inner::occupied(pieces, colors);
    let diagonal = sliding::inner::get_bishop_moves(sq, occ);
    let straight = sliding::inner::get_rook_moves(sq, occ);
    let pawn = steps::inner::get_pawn_attacks(geometry::other(color), sq);
    let knight = steps::inner::get_knight_moves(sq);
    let king = steps::inner::get_king_moves(sq);
    met(pieces, colors[c], pawn, knight, diagonal, straight, king)
}

// Whether a man of a colour attacks a square.
pub fn is_attacked(pieces: [u64; 6], colors: [u64; 2], sq: u8, color: Color) -> bool
    requires { Clean pieces colors × (sq < 64) }
    ensures { result ≡ attacked (men_at pieces colors) color sq }
{
    attackers(pieces, colors, sq, color) != 0
}
