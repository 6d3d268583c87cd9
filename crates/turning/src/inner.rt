// The state of an accepted board in the other edition, and the board with it.
ghost use Rattle.std.specs.Prelude.{◌≡◌, ◌<◌};
ghost use Rattle.refusal.specs.Refusals.{nothing_refused};
ghost use Rattle.laws.specs.declared.EnPassantFlag.TheVariants.{Some};
ghost use Rattle.laws.specs.Editions.{other_edition, turned_state};
ghost use Rattle.laws.specs.Boards.{men_in, Clean};
ghost use Rattle.board.specs.Gate.{gate_of};
ghost use Rattle.turning.specs.Turned.{turned_on};
ghost use Rattle.turning.specs.inner.Named.{square_turned, Turns};

use board::RetractableBoard;
use laws::{Edition, EnPassantFlag, Position};

pub fn other_edition(edition: Edition) -> Edition
    ensures { result ≡ other_edition edition }
{
    match edition {
        Edition::A => Edition::B,
        Edition::B => Edition::A,
    }
}

// A square named in B: A keeps it where a pawn can take, and says none where no pawn could.
fn square_turned(p: Position, sq: u8) -> EnPassantFlag
    requires { Clean p.pieces p.colors × (sq < 64) }
    ensures { result ≡ square_turned (men_in p) p.turn sq }
{
    let pieces = p.pieces;
    let colors = p.colors;
    let turn = p.turn;
    if men::inner::pawn_beside(pieces, colors, turn, sq) {
        return EnPassantFlag::Some(sq);
    }
    EnPassantFlag::None
}

// A's dash does not say whether there was a double step, so in B it is unknown.
fn state_turned(p: Position) -> EnPassantFlag
    requires { Turns p }
    ensures { result ≡ turned_state p.terms.edition (men_in p) p.turn p.passant }
{
    let terms = p.terms;
    let edition = terms.edition;
    let state = p.passant;
    match state {
        EnPassantFlag::Any => EnPassantFlag::Any,
        EnPassantFlag::Some(sq) => match edition {
            Edition::A => EnPassantFlag::Some(sq),
            Edition::B => square_turned(p, sq),
        },
        EnPassantFlag::None => match edition {
            Edition::A => EnPassantFlag::Any,
            Edition::B => EnPassantFlag::None,
        },
    }
}

pub fn turned(b: RetractableBoard) -> RetractableBoard
    requires { gate_of b ≡ nothing_refused }
    ensures { result ≡ turned_on b }
{
    let p = board::inner::position_of(b);
    let passant = state_turned(p);
    let today = b.terms;
    let edition = today.edition;
    let terms = laws::terms_of(other_edition(edition));
    RetractableBoard {
        passant,
        terms,
        ..b
    }
}
