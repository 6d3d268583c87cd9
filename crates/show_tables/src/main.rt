// Prints the tables and the sets of each square, one a line, in the form of the oracle's `ported tables`, and then what is asked of the sliders.
#![tactic(auto)]

ghost use Rattle.std.specs.Prelude.{◌<◌};
ghost use Rattle.geometry.specs.Lines.{IsBetween};

use geometry::Color;

mod sliders; // sliders.rt: occupied sets read, and what each slider reaches past them

fn main(rt: HostRuntime) {
    let t = tables::between_table();
    show_between(&rt, &t);
    show_lines(&rt);
    show_squares(&rt);
    sliders::show_all(&rt);
}

fn show_between(out: &impl Print, t: &[u64; 4096])
    requires { IsBetween t.now }
{
    for a in 0u8..64 {
        between_row(out, t, a);
    }
}

fn between_row(out: &impl Print, t: &[u64; 4096], a: u8)
    requires { IsBetween t.now × (a < 64) }
{
    for b in 0u8..64 {
        between_pair(out, t, a, b);
    }
}

fn between_pair(out: &impl Print, t: &[u64; 4096], a: u8, b: u8)
    requires { IsBetween t.now × (a < 64) × (b < 64) }
{
    show_pair(out, "between ", a, b, tables::inner::between(t, a, b));
}

fn show_lines(out: &impl Print) {
    for a in 0u8..64 {
        line_row(out, a);
    }
}

fn line_row(out: &impl Print, a: u8) {
    for b in 0u8..64 {
        line_pair(out, a, b);
    }
}

fn line_pair(out: &impl Print, a: u8, b: u8) {
    show_pair(out, "line ", a, b, sliding::inner::lines::line(a, b));
}

fn show_squares(out: &impl Print) {
    for a in 0u8..64 {
        show_square(out, a);
    }
}

fn show_square(out: &impl Print, a: u8)
    requires { a < 64 }
{
    show(out, "knight ", a, steps::inner::get_knight_moves(a));
    show(out, "king ", a, steps::inner::get_king_moves(a));
    show(out, "rookrays ", a, sliding::inner::get_rook_moves(a, 0));
    show(
        out,
        "bishoprays ",
        a,
        sliding::inner::get_bishop_moves(a, 0),
    );
    show(
        out,
        "pawnw ",
        a,
        steps::inner::get_pawn_attacks(Color::White, a),
    );
    show(
        out,
        "pawnb ",
        a,
        steps::inner::get_pawn_attacks(Color::Black, a),
    );
}

fn show_pair(out: &impl Print, name: &str, a: u8, b: u8, set: u64) {
    let _ = print!(out; "{name}{a} ");
    show(out, "", b, set);
}

fn show(out: &impl Print, name: &str, a: u8, set: u64) {
    let _ = print!(out; "{name}{a} ");
    end_with(out, set);
}

// A set, in sixteen digits, ends a line.
fn end_with(out: &impl Print, set: u64) {
    let _ = println!(out; "{set:016x}");
}
