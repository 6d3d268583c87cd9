// The rights to castle, and the squares that king and rook castle between.
ghost use Rattle.std.specs.Prelude.{◌≡◌, ◌<◌};
ghost use Rattle.laws.specs.Positions.{rights_of, rights_for, king_home, corner, king_to, rook_to};
ghost use Rattle.laws.specs.Positions as positions;

use super::super::{CastleRights, Color, Position, Side};

// The right of a side in a colour's field.
pub fn holds(r: CastleRights, d: Side) -> bool
    ensures { result ≡ positions.holds r d }
{
    match r {
        CastleRights::NoRights => false,
        CastleRights::KingSide => match d {
            Side::Short => true,
            Side::Long => false,
        },
        CastleRights::QueenSide => match d {
            Side::Short => false,
            Side::Long => true,
        },
        CastleRights::Both => true,
    }
}

// A colour has the right of a side.
pub fn has_right(p: Position, c: Color, d: Side) -> bool
    ensures { result ≡ rights_of p.white p.black c d }
{
    let white = p.white;
    let black = p.black;
    match c {
        Color::White => holds(white, d),
        Color::Black => holds(black, d),
    }
}

// The field that says two given rights.
pub fn rights_for(short: bool, long: bool) -> CastleRights
    ensures { result ≡ rights_for short long }
{
    if short {
        if long {
            return CastleRights::Both;
        }
        return CastleRights::KingSide;
    }
    if long {
        return CastleRights::QueenSide;
    }
    CastleRights::NoRights
}

pub fn king_home(c: Color) -> u8
    ensures { (result ≡ king_home c) × (result < 64) }
{
    geometry::inner::home_square(c, 4)
}

pub fn rook_home(c: Color, d: Side) -> u8
    ensures { (result ≡ corner c d) × (result < 64) }
{
    match d {
        Side::Short => geometry::inner::home_square(c, 7),
        Side::Long => geometry::inner::home_square(c, 0),
    }
}

// Where the king goes to, and where the rook does.
pub fn king_to(c: Color, d: Side) -> u8
    ensures { (result ≡ king_to c d) × (result < 64) }
{
    match d {
        Side::Short => geometry::inner::home_square(c, 6),
        Side::Long => geometry::inner::home_square(c, 2),
    }
}

pub fn rook_to(c: Color, d: Side) -> u8
    ensures { (result ≡ rook_to c d) × (result < 64) }
{
    match d {
        Side::Short => geometry::inner::home_square(c, 5),
        Side::Long => geometry::inner::home_square(c, 3),
    }
}
