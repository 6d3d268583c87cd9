// What an entrant is told of a file, the position on its first line and the solution below it: the verdict, or the refusal, in one line.
#![tactic(auto)]

ghost use Rattle.solution_reply.specs.Replies.{Replies};

use laws::Edition;

pub mod inner; // inner.rt: the verdict in writing

// The first bytes of `out` are the verdict on a file of edition A; answers how many. The bytes behind it stay.
pub fn reply(file: &[u8], out: &mut [u8; 196608]) -> usize
    ensures { Replies file.now result out.old out.new }
{
    let end = file.len();
    let stop = chunks::inner::find(file, 0, end);
    let below = chunks::inner::past(stop, end);
    let told = solution::check(&file[..stop], Edition::A, &file[below..]);
    inner::put_verdict(told, out)
}
