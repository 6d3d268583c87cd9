// `gate TAB raw fields union checkers pins`: by which number each entry refuses a board of these fields, 0 for none. The other arguments are such
// that an entry which lets the board pass refuses them, where it can: 64 for a square, and slices without room.
ghost use Rattle.puts.specs.inner.Growing.{Grows};

use board::RetractableBoard;
use laws::{ChessRetraction, Color, EnPassantFlag};
use refusal::Refusal;
use retraction_gen::RetractionGen;
use slots::Unlisted;
use text::Unprinted;

// The answer to a line of this verb, 0 bytes to any other.
pub fn answer(line: &[u8], out: &mut [u8; 65536]) -> usize
    ensures { Grows 0 result }
{
    if !fields::inner::starts(line, b"gate\t") {
        return 0;
    }
    let b = board_field::inner::untested(line, fields::inner::after(line, 0, b'\t'));
    let h = put_asked(b, out);
    let i = put_changed(b, out, h);
    let j = put_listings(b, out, i);
    put_strict(b, out, j)
}

// judge, piece_on, is_attacked
fn put_asked(b: RetractableBoard, out: &mut [u8; 65536]) -> usize
    ensures { Grows 0 result }
{
    let h = puts::inner::number(out, 0, of(b.judge().verdict));
    let i = puts::inner::next_number(out, h, of(b.piece_on(64).answer));
    puts::inner::next_number(out, i, of(b.is_attacked(64, Color::White).answer))
}

// set_en_passant, set_uncertain_ep, make_retraction_new, replay
fn put_changed(b: RetractableBoard, out: &mut [u8; 65536], len: usize) -> usize
    ensures { Grows len result }
{
    let r = ChessRetraction {
        source: 64,
        target: 64,
        uncaptured: 0,
        unpromotion: false,
    };
    let h = puts::inner::next_number(
        out,
        len,
        of(b.set_en_passant(EnPassantFlag::Some(64)).verdict),
    );
    let i = puts::inner::next_number(out, h, of(b.set_uncertain_ep().verdict));
    let j = puts::inner::next_number(out, i, of(b.make_retraction_new(r).verdict));
    puts::inner::next_number(out, j, of(b.replay(r, 0).verdict))
}

// print, new_legal, uncaptured_candidates, retractions_into, is_limited_in_retractions
fn put_listings(b: RetractableBoard, out: &mut [u8; 65536], len: usize) -> usize
    ensures { Grows len result }
{
    let h = puts::inner::next_number(out, len, of_print(b));
    let i = puts::inner::next_number(out, h, of(RetractionGen::new_legal(b)));
    let j = puts::inner::next_number(out, i, of(retraction_gen::uncaptured_candidates(b)));
    let k = puts::inner::next_number(out, j, of_ported(b));
    puts::inner::next_number(out, k, of(limited::is_limited_in_retractions(b)))
}

// strict_into, strict_count, last_move
fn put_strict(b: RetractableBoard, out: &mut [u8; 65536], len: usize) -> usize
    ensures { Grows len result }
{
    let h = puts::inner::next_number(out, len, of_strict(b));
    let i = puts::inner::next_number(out, h, of(strict::strict_count(b)));
    puts::inner::next_number(out, i, of(strict::last_move(b)))
}

// The number of an answer's refusal.
fn of<T: Drop>(answer: Result<T, Refusal>) -> u64 {
    match answer {
        Ok(_) => 0,
        Err(r) => refusal::number(r) as u64,
    }
}

fn of_print(b: RetractableBoard) -> u64 {
    let mut bytes = [0u8; 1];
    of(text::print(b, &mut bytes[..0]).map_err(|why| match why {
        Unprinted::Room(_) => Refusal::Room,
        Unprinted::Refused(r) => r,
    }))
}

fn of_ported(b: RetractableBoard) -> u64 {
    let mut slots = [0u16; 1];
    of_listed(listing::retractions_into(b, &mut slots[..0]))
}

fn of_strict(b: RetractableBoard) -> u64 {
    let mut slots = [0u16; 1];
    of_listed(strict::strict_into(b, &mut slots[..0]))
}

fn of_listed(answer: Result<usize, Unlisted>) -> u64 {
    of(answer.map_err(Refusal::from))
}
