// Souls: the pawns of a side and the men that must have been pawns, counted by the ones of their sets.
ghost use Rattle.std.specs.Prelude.{◌≡◌, ◌≤◌};
ghost use Rattle.laws.specs.Souls as laws;
ghost use Rattle.laws.specs.Boards.{men_at, Clean};
ghost use Rattle.souls.specs.Sets.{light_squares, dark_squares, beyond_of, souls_of};

use laws::Color;

pub fn light_squares() -> u64
    ensures { result ≡ light_squares }
{
    0x55aa_55aa_55aa_55aa
}

pub fn dark_squares() -> u64
    ensures { result ≡ dark_squares }
{
    0xaa55_aa55_aa55_aa55
}

// How many men of a set go beyond m.
fn beyond(s: u64, m: u32) -> u32
    ensures { (result ≡ beyond_of s m) × (result ≤ 64) }
{
    let n = squares::count(s);
    if n > m { n - m } else { 0 }
}

// Of the sets of a side's men by kind.
pub fn souls_of(f: [u64; 6]) -> u32
    ensures { result ≡ souls_of f }
{
    let light = light_squares();
    let dark = dark_squares();
    let pawns = squares::count(f[0]);
    let knights = beyond(f[1], 2);
    let bright = beyond(f[2] & light, 1);
    let shady = beyond(f[2] & dark, 1);
    let rooks = beyond(f[3], 2);
    let queens = beyond(f[4], 1);
    pawns + (knights + bright + shady + rooks + queens)
}

// Of a colour's men.
pub fn souls(pieces: [u64; 6], colors: [u64; 2], color: Color) -> u32
    requires { Clean pieces colors }
    ensures { result ≡ laws.souls (men_at pieces colors) color }
{
    let c = men::inner::color_place(color);
    let side = colors[c];
    souls_of([
        pieces[0] & side,
        pieces[1] & side,
        pieces[2] & side,
        pieces[3] & side,
        pieces[4] & side,
        pieces[5] & side,
    ])
}
