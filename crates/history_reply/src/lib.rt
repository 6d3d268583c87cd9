// What a person gets who asks for a past of so many plies: the first history of a text's board, ply under ply, or `none`, or its refusal.
#![tactic(auto)]

ghost use Rattle.history_reply.specs.Replies.{Replies};

pub mod inner; // inner.rt: the answer to a text and a depth, in writing, and that to a line over a lent table

// The first bytes of `out` are the answer to a line, a text of edition A, a space and a depth; answers how many. The bytes behind it stay.
pub fn reply(line: &[u8], out: &mut [u8; 196608]) -> usize
    ensures { Replies line.now result out.old out.new }
{
    let t = tables::between_table();
    inner::reply(&t, line, out)
}
