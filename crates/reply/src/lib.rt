// The answer to a line of input: its text, the checkers and the two lists of its board, or its refusal.
#![tactic(auto)]

ghost use Rattle.refusal.specs.Refusals.{number_of};
ghost use Rattle.reply.specs.Replies.{refused_text, Shows, Replies};

use laws::Edition;
use refusal::Refusal;

pub mod inner; // inner.rt: a refusal by its number, the answer of a board that its gate let pass, and that of a line over a lent table

// `refused N`, and nothing else; the bytes behind it stay.
pub fn put_refused(r: Refusal, out: &mut [u8; 196608]) -> usize
    ensures { Shows (refused_text (number_of r)) result out.old out.new }
{
    inner::put_number(refusal::number(r), out)
}

// The first bytes of `out` are the answer to a line, read in an edition; answers how many. The bytes behind it stay, and so do the slots that no list needs.
pub fn reply(
    line: &[u8],
    edition: Edition,
    listed: &mut [u16; 8192],
    strict: &mut [u16; 8192],
    out: &mut [u8; 196608],
) -> usize
    ensures { Replies edition line.now result out.old out.new listed.old listed.new strict.old strict.new }
{
    let t = tables::between_table();
    inner::reply(&t, line, edition, listed, strict, out)
}
