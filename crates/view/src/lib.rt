// What the lists of piece_type.rs read of a board, taken once: the `let`s that open each `legals`.
#![tactic(auto)]

pub use laws::{Color, Edition, EnPassantFlag, Position};

pub mod inner; // inner.rt: looking at a position

#[derive(Clone, Copy)]
pub struct View {
    // `retracting_color`, and its castling rights: whether it has one, and `castling_rooks`
    pub color: Color,
    pub held: bool,
    pub corners: u64,
    pub combined: u64,
    // the retractor's men, and by kind
    pub own: u64,
    pub men: [u64; 6],
    // the men of the side to move by kind
    pub foes: [u64; 6],
    // `enemy_pawns`: the pawns that aren't the retractor's
    pub rivals: u64,
    // everything but the men of the side to move
    pub mask: u64,
    // the retractor's king, and the other (`opp_ksq`)
    pub king: u8,
    pub oppking: u8,
    pub pinned: u64,
    pub checkers: u64,
    // the board's own sets, which `is_attacked` reads
    pub pieces: [u64; 6],
    pub colors: [u64; 2],
    // the state, and the edition that a dash is read in
    pub passant: EnPassantFlag,
    pub edition: Edition,
}
