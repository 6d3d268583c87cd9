// Packing a retraction into a 16-bit slot, and a state that is not known.
ghost use Rattle.std.specs.Prelude.{◌≡◌};
ghost use Rattle.laws.specs.Positions.{uncertain};
ghost use Rattle.laws.specs.Retractions.{packed, InRange};

use super::{ChessRetraction, EnPassantFlag};

pub mod castling; // castling.rt: rights, and where king and rook castle between

pub fn pack(r: ChessRetraction) -> u16
    requires { InRange r }
    ensures { result ≡ packed r }
{
    (r.source as u16)
        + 64 * (r.target as u16)
        + 4096 * (r.uncaptured as u16)
        + 32768 * (r.unpromotion as u16)
}

// None becomes unknown.
pub fn uncertain_of(passant: EnPassantFlag) -> EnPassantFlag
    ensures { result ≡ uncertain passant }
{
    match passant {
        EnPassantFlag::Any => EnPassantFlag::Any,
        EnPassantFlag::Some(sq) => EnPassantFlag::Some(sq),
        EnPassantFlag::None => EnPassantFlag::Any,
    }
}
