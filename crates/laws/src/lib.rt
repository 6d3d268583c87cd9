// The names of the board. What they mean, the Laws of chess and the rules of retraction, stands in specs/.
#![tactic(auto)]

ghost use Rattle.std.specs.Prelude.{◌≡◌};
ghost use Rattle.laws.specs.Positions.{terms_of};
ghost use Rattle.laws.specs.Retractions.{unpacked};

pub use geometry::Color;

pub mod inner; // inner.rt: packing into 16 bits, and none made unknown; inner/castling.rt: rights and homes

#[derive(Clone, Copy)]
pub enum Piece {
    Pawn,
    Knight,
    Bishop,
    Rook,
    Queen,
    King,
}

// The castling rights of one colour.
#[derive(Clone, Copy)]
pub enum CastleRights {
    NoRights,
    KingSide,
    QueenSide,
    Both,
}

// The king's side and the queen's side.
#[derive(Clone, Copy)]
pub enum Side {
    Short,
    Long,
}

// What a move changes beside its two squares: nothing, a pawn taken en passant, the rook of a castling.
#[derive(Clone, Copy)]
pub enum Way {
    Plain,
    Passant,
    Castle(Side),
}

// The en passant state: unknown, the square of the pawn that has just made a double step, or none.
#[derive(Clone, Copy)]
pub enum EnPassantFlag {
    Any,
    Some(u8),
    None,
}

// How a board's state is read. Edition A: a dash says that no enemy pawn stood beside a double step. Edition B, the PGN reading: a dash says that
// the last move was no double step, and a named square needs no pawn beside it.
#[derive(Clone, Copy)]
pub enum Edition {
    A,
    B,
}

// What a board is read by, and no move changes.
#[derive(Clone, Copy)]
pub struct Terms {
    pub edition: Edition,
}

// The terms of an edition.
pub fn terms_of(edition: Edition) -> Terms
    ensures { result ≡ terms_of edition }
{
    Terms { edition }
}

// A board's fields without the worked-out ones: the sets of the men by kind and by colour, the turn, each colour's rights, the state, and the
// terms that it is read by.
#[derive(Clone, Copy)]
pub struct Position {
    pub pieces: [u64; 6],
    pub colors: [u64; 2],
    pub turn: Color,
    pub white: CastleRights,
    pub black: CastleRights,
    pub passant: EnPassantFlag,
    pub terms: Terms,
}

// All fields of a board: those of its position, and the union, pins and checkers worked out of them.
#[derive(Clone, Copy)]
pub struct Board {
    pub pieces: [u64; 6],
    pub colors: [u64; 2],
    pub combined: u64,
    pub turn: Color,
    pub white: CastleRights,
    pub black: CastleRights,
    pub pinned: u64,
    pub checkers: u64,
    pub passant: EnPassantFlag,
    pub terms: Terms,
}

// A man goes back from the source (today) to the target (earlier); `uncaptured` is the number of the man that reappears on the source.
#[derive(Clone, Copy)]
pub struct ChessRetraction {
    pub source: u8,
    pub target: u8,
    pub uncaptured: u8,
    pub unpromotion: bool,
}

impl ChessRetraction {
    // The retraction that a 16-bit slot holds.
    pub fn unpack(slot: u16) -> ChessRetraction
        ensures { result ≡ unpacked slot }
    {
        ChessRetraction {
            source: (slot % 64) as u8,
            target: (slot / 64 % 64) as u8,
            uncaptured: (slot / 4096 % 8) as u8,
            unpromotion: slot / 32768 == 1,
        }
    }
}
