// Refusals 1 to 6 in order.
ghost use Rattle.std.specs.Prelude.{◌≡◌};
ghost use Rattle.laws.specs.Boards.{Clean};
ghost use Rattle.accept.specs.Verdicts.{first_refused, third_of, five_of, judged_of};

use laws::Position;
use refusal::{Refusal, Verdict};

pub mod refusals; // refusals.rt: 2 to 5 one by one

// The first of 3 to 5 that fails.
fn first(pawns: bool, rights: bool, passant: bool) -> Verdict
    ensures { result ≡ first_refused pawns rights passant }
{
    if pawns {
        return Err(Refusal::Pawn);
    }
    if rights {
        return Err(Refusal::Rights);
    }
    if passant {
        return Err(Refusal::Passant);
    }
    Ok(())
}

// Refusals 3 to 5.
fn third(p: Position) -> Verdict
    requires { Clean p.pieces p.colors }
    ensures { result ≡ third_of p }
{
    let pawns = refusals::bad_pawns(p);
    let rights = refusals::bad_rights(p);
    let state = refusals::bad_passant(p);
    first(pawns, rights, state)
}

// Refusals 1 to 5: what replay asks of a board beside 7.
pub fn five(p: Position) -> Verdict
    ensures { result ≡ five_of p }
{
    if men::inner::bad_men(p.pieces, p.colors) {
        return Err(Refusal::Men);
    }
    if refusals::bad_kings(p) {
        return Err(Refusal::Kings);
    }
    third(p)
}

// Refusals 1 to 6: how raw men come in.
pub fn judge(p: Position) -> Verdict
    ensures { result ≡ judged_of p }
{
    five(p)?;
    if pins::inner::bad_check(p.pieces, p.colors, p.turn) {
        return Err(Refusal::Check);
    }
    Ok(())
}
