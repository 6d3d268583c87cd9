// The words of a board, and a board from words: any word is read as some value, and what is read is tested where it is fetched.
ghost use Rattle.std.specs.Prelude.{◌≡◌, ◌+◌, ◌≤◌, length};
ghost use Rattle.std.proofs.Math.Seq.{paste};
ghost use Rattle.place.specs.Words.{place_words, mark_word, edition_read, color_word, color_read, rights_word, rights_read, state_word, state_read, words_of, board_read, words_at};

use super::WORDS;
use board::RetractableBoard;
use laws::{CastleRights, Color, Edition, EnPassantFlag};

// The mark of a place that holds a board says the board's edition.
fn mark_word(v: Edition) -> u64
    ensures { result ≡ mark_word v }
{
    match v {
        Edition::A => 1,
        Edition::B => 2,
    }
}

fn edition_read(w: u64) -> Edition
    ensures { result ≡ edition_read w }
{
    if w == 2 { Edition::B } else { Edition::A }
}

fn color_word(c: Color) -> u64
    ensures { result ≡ color_word c }
{
    match c {
        Color::White => 0,
        Color::Black => 1,
    }
}

fn color_read(w: u64) -> Color
    ensures { result ≡ color_read w }
{
    if w == 0 { Color::White } else { Color::Black }
}

fn rights_word(r: CastleRights) -> u64
    ensures { result ≡ rights_word r }
{
    match r {
        CastleRights::NoRights => 0,
        CastleRights::KingSide => 1,
        CastleRights::QueenSide => 2,
        CastleRights::Both => 3,
    }
}

fn rights_read(w: u64) -> CastleRights
    ensures { result ≡ rights_read w }
{
    if w == 0 {
        return CastleRights::NoRights;
    }
    if w == 1 {
        return CastleRights::KingSide;
    }
    if w == 2 {
        return CastleRights::QueenSide;
    }
    CastleRights::Both
}

fn state_word(p: EnPassantFlag) -> u64
    ensures { result ≡ state_word p }
{
    match p {
        EnPassantFlag::Any => 0,
        EnPassantFlag::None => 1,
        EnPassantFlag::Some(q) => q as u64 + 2,
    }
}

fn state_read(w: u64) -> EnPassantFlag
    ensures { result ≡ state_read w }
{
    if w == 0 {
        return EnPassantFlag::Any;
    }
    if w == 1 {
        return EnPassantFlag::None;
    }
    if w < 258 {
        return EnPassantFlag::Some((w - 2) as u8);
    }
    EnPassantFlag::Some(255)
}

// The words of a place that holds a board.
pub fn words_of(b: RetractableBoard) -> [u64; WORDS]
    ensures { result ≡ words_of b }
{
    let p = b.pieces;
    let c = b.colors;
    let terms = b.terms;
    let edition = terms.edition;
    let turn = b.turn;
    let white = b.white;
    let black = b.black;
    let state = b.passant;
    let mw = mark_word(edition);
    let tw = color_word(turn);
    let ww = rights_word(white);
    let bw = rights_word(black);
    let sw = state_word(state);
    [
        mw, p[0], p[1], p[2], p[3], p[4], p[5], c[0], c[1], b.combined, tw, ww, bw, b.pinned,
        b.checkers, sw,
    ]
}

// The board that the words of a place hold.
pub fn board_read(w: [u64; WORDS]) -> RetractableBoard
    ensures { result ≡ board_read w }
{
    let edition = edition_read(w[0]);
    let terms = laws::terms_of(edition);
    let turn = color_read(w[10]);
    let white = rights_read(w[11]);
    let black = rights_read(w[12]);
    let passant = state_read(w[15]);
    RetractableBoard {
        pieces: [w[1], w[2], w[3], w[4], w[5], w[6]],
        colors: [w[7], w[8]],
        combined: w[9],
        turn,
        white,
        black,
        pinned: w[13],
        checkers: w[14],
        passant,
        terms,
    }
}

// The words of the place that starts at k.
pub fn words_at(table: &[u64], k: usize) -> [u64; WORDS]
    requires { k + place_words ≤ length table.now }
    ensures { result ≡ words_at table.now k place_words }
{
    let mut w = [0u64; WORDS];
    w.copy_from_slice(&table[k..k + WORDS]);
    w
}

// Words into the place that starts at k.
pub fn store(table: &mut [u64], k: usize, w: [u64; WORDS])
    requires { (k + place_words ≤ length table.old) × (length w ≡ place_words) }
    ensures { table.new ≡ paste table.old k w place_words }
{
    table[k..k + WORDS].copy_from_slice(&w);
}
