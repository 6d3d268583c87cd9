// How a position goes back, by the way w of the move that the colour c made.
ghost use Rattle.std.specs.Prelude.{◌≡◌, ◌<◌};
ghost use Rattle.laws.specs.declared.Side.TheVariants.{Short as short, Long as long};
ghost use Rattle.laws.specs.Men.{man_of};
ghost use Rattle.laws.specs.Positions.{rights_of, rights_for};
ghost use Rattle.laws.specs.Unmaking.{same_side, regained, state_before, unmade_by};
ghost use Rattle.laws.specs.Unmaking as laws;
ghost use Rattle.laws.specs.Boards.{Clean, men_in, pos_at};
ghost use Rattle.position.specs.Answers.{position_of};
ghost use Rattle.position.specs.inner.Edits.{with_men};
ghost use Rattle.unmake.specs.inner.Parts.{Fits, before_for, Leaves};

use laws::{CastleRights, ChessRetraction, Color, EnPassantFlag, Position, Side, Way};

// The square that un-make clears beside the source: that of the castled rook.
fn uncleared(p: Position, w: Way, c: Color) -> Position
    requires { Clean p.pieces p.colors }
    ensures { result ≡ with_men p (laws.uncleared w c (men_in p)) }
{
    match w {
        Way::Plain => p,
        Way::Passant => p,
        Way::Castle(d) => position::inner::put_man(p, laws::inner::castling::rook_to(c, d), 0),
    }
}

// The square that it fills beside the target: the pawn taken en passant, the rook in its corner.
fn unfilled(p: Position, w: Way, c: Color, s: u8) -> Position
    requires { Clean p.pieces p.colors × (s < 64) × Fits w c s }
    ensures { result ≡ with_men p (laws.unfilled w c s (men_in p)) }
{
    match w {
        Way::Plain => p,
        Way::Passant => {
            let d = geometry::other(c);
            let q = geometry::inner::behind(c, s);
            position::inner::put_man(p, q, position::inner::man_number(d, 1))
        }
        Way::Castle(d) => {
            let q = laws::inner::castling::rook_home(c, d);
            position::inner::put_man(p, q, position::inner::man_number(c, 4))
        }
    }
}

// The men before the move: x left the square t, and y stood on the square s.
fn before(p: Position, w: Way, c: Color, t: u8, s: u8, x: u8, y: u8) -> Position
    requires { (Clean p.pieces p.colors × (t < 64) × (s < 64)) × ((x < 14) × (y < 14) × Fits w c s) }
    ensures { result ≡ with_men p (before_for w c t s (man_of x) (man_of y) (men_in p)) }
{
    let lifted = uncleared(p, w, c);
    let left = position::inner::put_man(lifted, s, y);
    let filled = unfilled(left, w, c, s);
    position::inner::put_man(filled, t, x)
}

fn same_side(a: Side, b: Side) -> bool
    ensures { result ≡ same_side a b }
{
    match a {
        Side::Short => match b {
            Side::Short => true,
            Side::Long => false,
        },
        Side::Long => match b {
            Side::Short => false,
            Side::Long => true,
        },
    }
}

// An owner's right before the move that c made: castling gives the mover's on its side back.
fn regains(p: Position, w: Way, c: Color, owner: Color, d: Side) -> bool
    ensures { result ≡ regained w c (rights_of p.white p.black) owner d }
{
    let held = laws::inner::castling::has_right(p, owner, d);
    let mine = men::inner::color_place(c) == men::inner::color_place(owner);
    match w {
        Way::Plain => held,
        Way::Passant => held,
        Way::Castle(e) => held | (mine & same_side(e, d)),
    }
}

fn rights_before(p: Position, w: Way, c: Color, owner: Color) -> CastleRights
    ensures { result ≡ rights_for (regained w c (rights_of p.white p.black) owner short) (regained w c (rights_of p.white p.black) owner long) }
{
    let short = regains(p, w, c, owner, Side::Short);
    let long = regains(p, w, c, owner, Side::Long);
    laws::inner::castling::rights_for(short, long)
}

// Unknown, or the square of the pawn that reappears; never none.
fn state_before(w: Way, c: Color, s: u8) -> EnPassantFlag
    requires { (s < 64) × Fits w c s }
    ensures { result ≡ state_before w c s }
{
    match w {
        Way::Plain => EnPassantFlag::Any,
        Way::Passant => EnPassantFlag::Some(geometry::inner::behind(c, s)),
        Way::Castle(_) => EnPassantFlag::Any,
    }
}

// The earlier position; c is the retractor, and x the number of the man that left the target.
pub fn unmade(p: Position, r: ChessRetraction, w: Way, c: Color, x: u8) -> Position
    requires { Leaves p r w c x }
    ensures { result ≡ position_of (unmade_by w c (pos_at p) r) }
{
    let d = geometry::other(c);
    let y = position::inner::man_number(d, r.uncaptured);
    let m = before(p, w, c, r.target, r.source, x, y);
    let state = state_before(w, c, r.source);
    let white = rights_before(p, w, c, Color::White);
    let black = rights_before(p, w, c, Color::Black);
    Position {
        turn: c,
        white: white,
        black: black,
        passant: state,
        ..m
    }
}
