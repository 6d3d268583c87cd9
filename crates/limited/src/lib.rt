// `is_limited_in_retractions` of the Rust's retraction_gen.rs.
#![tactic(auto)]

ghost use Rattle.std.specs.Prelude.{◌≡◌, [], ◌∷◌};
ghost use Rattle.geometry.specs.Lines.{IsBetween};
ghost use Rattle.refusal.specs.Said.{told};
ghost use Rattle.view.specs.inner.Readiness.{Whole};
ghost use Rattle.retraction_gen.specs.Making.{view_on};
ghost use Rattle.limited.specs.Limiting.{limited_says, names_square, flipped, side_of, sides_of, limited_from, limited_of};

use board::RetractableBoard;
use laws::EnPassantFlag;
use refusal::Refusal;

fn names_a_square(passant: EnPassantFlag) -> bool
    ensures { result ≡ names_square passant }
{
    match passant {
        EnPassantFlag::Any => false,
        EnPassantFlag::Some(_) => true,
        EnPassantFlag::None => false,
    }
}

// The Rust's `flip`: the turn goes to the other side, the state becomes unknown, and checkers and pins stay as they are.
fn flip(b: RetractableBoard) -> RetractableBoard
    ensures { result ≡ flipped b }
{
    let pieces = b.pieces;
    let colors = b.colors;
    let turn = b.turn;
    let white = b.white;
    let black = b.black;
    let terms = b.terms;
    RetractableBoard {
        pieces,
        colors,
        combined: b.combined,
        turn: geometry::other(turn),
        white,
        black,
        pinned: b.pinned,
        checkers: b.checkers,
        passant: EnPassantFlag::Any,
        terms,
    }
}

// Whether the side that does not have the turn has no retraction but of pawns.
fn side(t: &[u64; 4096], b: RetractableBoard) -> Result<bool, Refusal>
    requires { IsBetween t.now × Whole (view_on b) }
    ensures { limited_says result ≡ side_of b (told (0 ∷ [])) }
{
    let v = retraction_gen::inner::seen(b);
    let list = enumerate::inner::all_but_pawns(t, v);
    if list.full {
        return Err(Refusal::Full);
    }
    let masks = uncaptured::inner::candidates(board::inner::position_of(b));
    let g = retraction_gen::inner::started(list, masks);
    Ok(g.next().next.is_none())
}

// The second list is built only where the first yields something.
fn sides(t: &[u64; 4096], b: RetractableBoard) -> Result<bool, Refusal>
    requires { IsBetween t.now × Whole (view_on b) }
    ensures { limited_says result ≡ sides_of b }
{
    if side(t, b)? {
        return Ok(true);
    }
    side(t, flip(b))
}

// A check or a named square answers before any list.
fn limited_from(t: &[u64; 4096], b: RetractableBoard) -> Result<bool, Refusal>
    requires { IsBetween t.now × Whole (view_on b) }
    ensures { limited_says result ≡ limited_from b }
{
    if (b.checkers != 0) | names_a_square(b.passant) {
        return Ok(true);
    }
    sides(t, b)
}

// Refusals 1 to 7, then 8 for a list that this call builds.
pub fn is_limited_in_retractions(b: RetractableBoard) -> Result<bool, Refusal>
    ensures { limited_says result ≡ limited_of b }
{
    let t = tables::between_table();
    board::inner::gate(&t, b)?;
    limited_from(&t, b)
}
