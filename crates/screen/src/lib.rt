// The stepping screen: a board, and one of its last moves for each press.
#![tactic(auto)]

ghost use Rattle.reply.specs.Replies.{Shows};
ghost use Rattle.screen.specs.Screens.{opening_text, Shown};

use board::RetractableBoard;
use laws::ChessRetraction;
use retraction_gen::RetractionGen;
use text::Unprinted;

pub mod inner; // inner.rt: one press over a lent table

// The record of the stepping screen: the board, its cursor, and how many retractions were shown, all and strict ones.
#[derive(Drop)]
pub struct Screen {
    pub board: RetractableBoard,
    pub cursor: RetractionGen,
    pub listed: u64,
    pub strict: u64,
}

// The screen after a press, what its cursor yielded, and how many bytes show it.
#[derive(Drop)]
pub struct Pressed {
    pub screen: Screen,
    pub next: Option<ChessRetraction>,
    pub size: usize,
}

// The board's text, its diagram, and what to do: refusals 1 to 7.
pub fn opening(b: RetractableBoard, out: &mut [u8; 196608]) -> usize
    ensures { Shows (opening_text b) result out.old out.new }
{
    let p = text::print(b, out);
    match p {
        Ok(n) => {
            let a = words::inner::put(out, n, b"\n");
            let d = diagram::inner::put_board(out, a, b, 64, 64);
            let turn = b.turn;
            let side = words::inner::put_side(out, d, turn);
            words::inner::put(out, side, b" to move. A key shows a last move, q leaves.\n")
        }
        Err(unprinted) => match unprinted {
            Unprinted::Room(_) => 0,
            Unprinted::Refused(why) => reply::put_refused(why, out),
        },
    }
}

// One press: the cursor's next retraction in words and on the board, or the end. `strict` has the slots of the strict list.
pub fn press(s: Screen, strict: &[u16], out: &mut [u8; 196608]) -> Pressed
    ensures { Shown s strict.now result out.old out.new }
{
    let t = tables::between_table();
    inner::press(&t, s, strict, out)
}
