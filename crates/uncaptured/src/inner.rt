// The six masks, over the sets of the men of the side to move by kind.
ghost use Rattle.std.specs.Prelude.{◌≡◌};
ghost use Rattle.uncaptured.specs.Masks.{pawn_squares, kept_of, bishops_of, masks_at, masks_for, masks_of};

use laws::Position;

fn pawn_squares() -> u64
    ensures { result ≡ pawn_squares }
{
    0x00ff_ffff_ffff_ff00
}

// A kind's squares; none where the souls are spent and the kind has m men or more.
fn kept(spent: bool, s: u64, m: u32) -> u64
    ensures { result ≡ kept_of spent s m }
{
    let n = squares::count(s);
    squares::choose(spent & (n >= m), 0, 0xffff_ffff_ffff_ffff)
}

// The squares of the shades that no bishop stands on.
fn bishops(s: u64) -> u64
    ensures { result ≡ bishops_of s }
{
    let light = souls::inner::light_squares();
    let dark = souls::inner::dark_squares();
    let d = squares::count(s & dark);
    let l = squares::count(s & light);
    let a = squares::choose(d >= 1, light, 0xffff_ffff_ffff_ffff);
    let b = squares::choose(l >= 1, dark, 0xffff_ffff_ffff_ffff);
    a & b
}

fn masks_at(f: [u64; 6], spent: bool) -> [u64; 6]
    ensures { result ≡ masks_at f spent }
{
    let home = pawn_squares();
    let pawns = squares::choose(spent, 0, home);
    let knights = kept(spent, f[1], 2);
    let some = bishops(f[2]);
    let either = squares::choose(spent, some, 0xffff_ffff_ffff_ffff);
    let rooks = kept(spent, f[3], 2);
    let queens = kept(spent, f[4], 1);
    [0xffff_ffff_ffff_ffff, pawns, knights, either, rooks, queens]
}

fn masks_for(f: [u64; 6]) -> [u64; 6]
    ensures { result ≡ masks_for f }
{
    let n = souls::inner::souls_of(f);
    if n > 8 {
        return [0; 6];
    }
    masks_at(f, n == 8)
}

pub fn candidates(p: Position) -> [u64; 6]
    ensures { result ≡ masks_of p }
{
    let pieces = p.pieces;
    let colors = p.colors;
    let turn = p.turn;
    let side = view::inner::color_set(colors, turn);
    let f = view::inner::among(pieces, side);
    masks_for(f)
}
