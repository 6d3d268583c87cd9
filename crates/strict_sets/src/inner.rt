// The strict targets of a source. `t` is the table of squares between, lent.
ghost use Rattle.std.specs.Prelude.{◌≡◌, true, not, ◌<◌, leb};
ghost use Rattle.squares.specs.Tests.{◌and◌};
ghost use Rattle.squares.specs.Squares.{set_of, united};
ghost use Rattle.geometry.specs.Colors.{opp};
ghost use Rattle.geometry.specs.Lines.{IsBetween};
ghost use Rattle.laws.specs.declared.EnPassantFlag.TheVariants.{None as none};
ghost use Rattle.laws.specs.Men.{man_of, is_of};
ghost use Rattle.laws.specs.Souls.{souls};
ghost use Rattle.laws.specs.Positions.{rights_of};
ghost use Rattle.laws.specs.Unmaking.{held};
ghost use Rattle.laws.specs.Strictness.{agrees};
ghost use Rattle.laws.specs.Boards.{men_in, pos_at};
ghost use Rattle.strict_test.specs.inner.Strictly.{Today};
ghost use Rattle.strict_sets.specs.inner.Parts.{special, strict_alone};
ghost use Rattle.strict_sets.specs.inner.Sets.{only_plain, Goes, Exact};

use super::Targets;
use laws::{ChessRetraction, EnPassantFlag, Position};

mod asked; // asked.rt: the targets that un-make itself is asked about
mod calm; // calm.rt: the targets of a step that no state remembers
mod coming; // coming.rt: where a man can have come from

// The targets of a source that has unmarked ones alone, with nothing uncaptured.
fn only_plain(set: u64) -> Targets
    ensures { result ≡ only_plain set }
{
    Targets {
        plain: set,
        taking: 0,
        marked: 0,
        both: 0,
        men: 0,
    }
}

// The man numbered x on s is the retractor's and no right holds it there; most squares fail by the first.
fn may_go(p: Position, s: u8, x: u8) -> bool
    requires { x < 14 }
    ensures { result ≡ (is_of (opp p.turn) (man_of x) and not (held (rights_of p.white p.black) (opp p.turn) s)) }
{
    let turn = p.turn;
    if !position::inner::is_of(geometry::other(turn), x) {
        return false;
    }
    let r = ChessRetraction {
        source: s,
        target: 0,
        uncaptured: 0,
        unpromotion: false,
    };
    !unmake::inner::is_held(p, r)
}

// Today's state is one that a step may leave which no state remembers.
fn is_open(state: EnPassantFlag) -> bool
    ensures { result ≡ agrees state none }
{
    match state {
        EnPassantFlag::Any => true,
        EnPassantFlag::Some(_) => false,
        EnPassantFlag::None => true,
    }
}

// The side to move has at most eight souls today, and so with nothing uncaptured.
fn few_today(p: Position) -> bool
    requires { Today p }
    ensures { result ≡ leb (souls (men_in p) p.turn) 8 }
{
    let pieces = p.pieces;
    let colors = p.colors;
    let turn = p.turn;
    souls::inner::souls(pieces, colors, turn) <= 8
}

// All targets, by those that un-make was asked about and those of them that are strict.
fn with_asked(t: &[u64; 4096], p: Position, s: u8, x: u8, asked: u64, told: u64) -> Targets
    requires { IsBetween t.now × Goes p s x × (agrees p.passant none ≡ true) × (asked ≡ set_of (special (opp p.turn) (man_of x) s)) × (told ≡ set_of (united (strict_alone (pos_at p) s) asked)) }
    ensures { Exact (pos_at p) s result }
{
    let same = calm::half(t, p, s, x);
    let pawn = calm::raised(t, p, s, x);
    let few = few_today(p);
    let men = returning::inner::men_back(p, s);
    Targets {
        plain: squares::choose(few, same.calm & !asked, 0) | told,
        taking: same.taking,
        marked: squares::choose(few, pawn.calm, 0),
        both: pawn.taking,
        men: men,
    }
}

// The strict targets of the source s, none where no man of the retractor stands or a right holds it.
pub fn targets_of(t: &[u64; 4096], p: Position, s: u8) -> Targets
    requires { IsBetween t.now × Today p × (s < 64) }
    ensures { Exact (pos_at p) s result }
{
    let x = position::inner::man_at(p, s);
    if !may_go(p, s, x) {
        return only_plain(0);
    }
    let turn = p.turn;
    let asked = asked::special(geometry::other(turn), x, s);
    let told = asked::tested(t, p, s, asked);
    let state = p.passant;
    if !is_open(state) {
        return only_plain(told);
    }
    with_asked(t, p, s, x, asked, told)
}
