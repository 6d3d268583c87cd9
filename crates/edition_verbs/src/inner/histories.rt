// The plies of a history, put packed behind `yes`, the latest first.
ghost use Rattle.puts.specs.inner.Growing.{Grows};

use history::{History, Why};
use laws::ChessRetraction;

// `no`, or `yes` and so many plies.
pub(super) fn put(told: Result<Option<History>, Why>, depth: u8, out: &mut [u8; 65536]) -> usize
    ensures { Grows 0 result }
{
    match told {
        Ok(Some(h)) => {
            let yes = puts::inner::bytes(out, 0, b"yes");
            put_plies(h, depth, out, yes)
        }
        Ok(None) => puts::inner::bytes(out, 0, b"no"),
        Err(why) => puts::inner::refused_by(out, 0, history::number(why)),
    }
}

fn put_plies(h: History, depth: u8, out: &mut [u8; 65536], len: usize) -> usize
    ensures { Grows len result }
{
    let a = put_if(1 <= depth, h.first, out, len);
    let b = put_if(2 <= depth, h.second, out, a);
    let c = put_if(3 <= depth, h.third, out, b);
    put_if(4 <= depth, h.fourth, out, c)
}

// A space and a ply, if there are so many.
fn put_if(there: bool, r: ChessRetraction, out: &mut [u8; 65536], len: usize) -> usize
    ensures { Grows len result }
{
    if !there {
        return len;
    }
    let a = puts::inner::bytes(out, len, b" ");
    puts::inner::retraction(out, a, r)
}
