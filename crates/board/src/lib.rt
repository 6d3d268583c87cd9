// The board of the Rust's board.rs, its gate (refusals 1 to 7) and its small methods. Every entry that takes a board tests it first.
#![tactic(auto)]

ghost use Rattle.std.specs.Prelude.{◌≡◌, ◌++◌, ◌<◌};
ghost use Rattle.laws.specs.Attacks.{attackers_of, attacked};
ghost use Rattle.laws.specs.Positions.{uncertain};
ghost use Rattle.laws.specs.Boards.{Clean};
ghost use Rattle.accept.specs.Verdicts.{raw_tests};
ghost use Rattle.board.specs.Gate.{men_on, pos_on, board_tests, position_from, no_board};
ghost use Rattle.board.specs.Said.{Boards, Tells, piece_says, attackers_says, attacked_says};
ghost use Rattle.board.specs.Answers.{worked_of, ask_tests, kind_on, state_tests, with_passant};
ghost use Rattle.board.specs.inner.Gates.{kind_read, told_of};
ghost use Rattle.board.specs.Moving.{unmake_tests, unmade_on, replay_tests, replayed_on};

use laws::{CastleRights, ChessRetraction, Color, Edition, EnPassantFlag, Piece, Position, Terms};
use refusal::{Refusal, Verdict};

pub mod inner; // inner.rt: the gate over a lent table

// Six sets by kind and two by colour; the worked-out union, pins and checkers; the turn, each colour's rights, the en passant
// state, and the terms that it is read by.
#[derive(Clone, Copy)]
pub struct RetractableBoard {
    pub pieces: [u64; 6],
    pub colors: [u64; 2],
    pub combined: u64,
    pub turn: Color,
    pub white: CastleRights,
    pub black: CastleRights,
    pub pinned: u64,
    pub checkers: u64,
    pub passant: EnPassantFlag,
    pub terms: Terms,
}

// A board, or a refusal beside the empty board.
#[derive(Clone, Copy)]
pub struct Boarded {
    pub verdict: Verdict,
    pub board: RetractableBoard,
}

// The kind on a square beside the board that was asked, or a refusal beside the empty board.
#[derive(Drop)]
pub struct PieceTold {
    pub answer: Result<Option<Piece>, Refusal>,
    pub board: RetractableBoard,
}

// The men that attack a square, in the same way.
#[derive(Drop)]
pub struct AttackersTold {
    pub answer: Result<u64, Refusal>,
    pub board: RetractableBoard,
}

// Whether a square is attacked, in the same way.
#[derive(Drop)]
pub struct AttackTold {
    pub answer: Result<bool, Refusal>,
    pub board: RetractableBoard,
}

// The empty board, which stands beside every refusal. It has no king, so every entry refuses it.
pub fn no_board() -> RetractableBoard
    ensures { result ≡ no_board }
{
    let terms = laws::terms_of(Edition::A);
    RetractableBoard {
        pieces: [0; 6],
        colors: [0; 2],
        combined: 0,
        turn: Color::White,
        white: CastleRights::NoRights,
        black: CastleRights::NoRights,
        pinned: 0,
        checkers: 0,
        passant: EnPassantFlag::Any,
        terms,
    }
}

impl RetractableBoard {
    // A board from raw men, its state read in an edition: refusals 1 to 6.
    pub fn new(
        pieces: [u64; 6],
        colors: [u64; 2],
        turn: Color,
        white: CastleRights,
        black: CastleRights,
        passant: EnPassantFlag,
        edition: Edition,
    ) -> Boarded
        ensures { Boards (raw_tests (position_from pieces colors turn white black passant edition)) (worked_of (position_from pieces colors turn white black passant edition)) result }
    {
        let t = tables::between_table();
        let terms = laws::terms_of(edition);
        let p = Position {
            pieces,
            colors,
            turn,
            white,
            black,
            passant,
            terms,
        };
        inner::board_from(&t, p)
    }

    // The gate: refusals 1 to 7 of any value.
    pub fn judge(mut self) -> Boarded
        ensures { Boards (board_tests self) self result }
    {
        let t = tables::between_table();
        let v = inner::gate(&t, self);
        self = inner::kept(v, self);
        Boarded {
            verdict: v,
            board: self,
        }
    }

    // What kind stands on a square: refusals 1 to 7, then 9.
    pub fn piece_on(mut self, sq: u8) -> PieceTold
        ensures { Tells (ask_tests self sq) (piece_says (Ok (kind_on (men_on self sq)))) self (piece_says result.answer) result.board }
    {
        let t = tables::between_table();
        let v = inner::ask_gate(&t, self, sq);
        self = inner::kept(v, self);
        match v {
            Err(w) => PieceTold {
                answer: Err(w),
                board: self,
            },
            Ok(()) => {
                let answer = Ok(kind_on(self, sq));
                PieceTold {
                    answer,
                    board: self,
                }
            }
        }
    }

    // The men of a colour that attack a square: refusals 1 to 7, then 9.
    pub fn attackers(mut self, sq: u8, color: Color) -> AttackersTold
        ensures { Tells (ask_tests self sq) (attackers_says (Ok (attackers_of (men_on self) color sq))) self (attackers_says result.answer) result.board }
    {
        let t = tables::between_table();
        let v = inner::ask_gate(&t, self, sq);
        self = inner::kept(v, self);
        match v {
            Err(w) => AttackersTold {
                answer: Err(w),
                board: self,
            },
            Ok(()) => {
                let men = attackers_on(self, sq, color);
                AttackersTold {
                    answer: Ok(men),
                    board: self,
                }
            }
        }
    }

    // Whether a man of a colour attacks a square: refusals 1 to 7, then 9.
    pub fn is_attacked(mut self, sq: u8, color: Color) -> AttackTold
        ensures { Tells (ask_tests self sq) (attacked_says (Ok (attacked (men_on self) color sq))) self (attacked_says result.answer) result.board }
    {
        let z = self.attackers(sq, color);
        self = z.board;
        AttackTold {
            answer: told(z.answer),
            board: self,
        }
    }

    // The board with another en passant state: refusals 1 to 7, then 5 for that state.
    pub fn set_en_passant(mut self, passant: EnPassantFlag) -> Boarded
        ensures { Boards (state_tests self passant) (with_passant self passant) result }
    {
        let t = tables::between_table();
        let v = inner::state_gate(&t, self, passant);
        self = RetractableBoard { passant, ..self };
        inner::board_by(v, self)
    }

    // The board with an unknown state where it had none.
    pub fn set_uncertain_ep(mut self) -> Boarded
        ensures { Boards (board_tests self) (with_passant self (uncertain self.passant)) result }
    {
        let t = tables::between_table();
        let v = inner::gate(&t, self);
        let state = self.passant;
        let passant = laws::inner::uncertain_of(state);
        self = RetractableBoard { passant, ..self };
        inner::board_by(v, self)
    }

    // The board before a retraction: refusals 1 to 7, then 9 to 12. It may have the retractor's king attacked.
    pub fn make_retraction_new(mut self, r: ChessRetraction) -> Boarded
        ensures { Boards (board_tests self ++ unmake_tests (pos_on self) r) (unmade_on self r) result }
    {
        let t = tables::between_table();
        let v = inner::moving::unmake_gate(&t, self, r);
        match v {
            Err(w) => inner::board_by(Err(w), no_board()),
            Ok(()) => {
                self = inner::moving::unmade(&t, self, r);
                inner::board_by(v, self)
            }
        }
    }

    // The board after the move of a retraction: refusals 1 to 5 and 7, then 12. `kind` is that promoted to, 0 where none is.
    pub fn replay(mut self, r: ChessRetraction, kind: u8) -> Boarded
        ensures { Boards (replay_tests self r kind) (replayed_on self r kind) result }
    {
        let t = tables::between_table();
        let z = inner::moving::replayed(&t, self, r, kind);
        self = z.board;
        Boarded { board: self, ..z }
    }
}

// Pinned men and the king attack like any other.
fn attackers_on(b: RetractableBoard, sq: u8, color: Color) -> u64
    requires { Clean b.pieces b.colors × (sq < 64) }
    ensures { result ≡ attackers_of (men_on b) color sq }
{
    let pieces = b.pieces;
    let colors = b.colors;
    attacks::inner::attackers(pieces, colors, sq, color)
}

// Whether there is an attacker.
fn told(men: Result<u64, Refusal>) -> Result<bool, Refusal>
    ensures { result ≡ told_of men }
{
    Ok(men? != 0)
}

// Who stands on a square, as board.rs's `piece_on` reads the sets.
fn kind_on(b: RetractableBoard, sq: u8) -> Option<Piece>
    ensures { result ≡ kind_read b sq }
{
    if squares::has(b.combined, sq) {
        return Some(back::inner::piece_at(inner::to_laws(b), sq));
    }
    None
}
