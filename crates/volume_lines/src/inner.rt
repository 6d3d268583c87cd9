// The lines of a slice, and the first that is refused.
ghost use Rattle.std.specs.Prelude.{◌≡◌, ◌+◌, ◌<◌, length};
ghost use Rattle.volume_lines.specs.Register.{note_of, unrefused};
ghost use Rattle.volume_lines.specs.inner.Surveys.{Surveyed};

use super::{Named, Survey};
use laws::Edition;
use position_text::Form;
use refusal::Verdict;

// The verdict on one board more, that of the line k.
fn note(n: Named, k: usize, v: Verdict) -> Named
    ensures { result ≡ note_of n k v }
{
    let had = n.verdict;
    match had {
        Err(w) => Named {
            verdict: Err(w),
            line: n.line,
        },
        Ok(()) => match v {
            Err(w) => Named {
                verdict: Err(w),
                line: k,
            },
            Ok(()) => Named {
                verdict: Ok(()),
                line: 0,
            },
        },
    }
}

// No board yet, and none refused.
pub fn unrefused() -> Named
    ensures { result ≡ unrefused }
{
    Named {
        verdict: Ok(()),
        line: 0,
    }
}

// The lines that end in `t`, up to the first that is out of form. `count` lines stand before them, with the verdict `before`.
pub fn survey(t: &[u8], count: usize, before: Named) -> Survey
    requires { count + length t.now < 18446744073709551616 }
    ensures { Surveyed t.now count before result }
{
    let mut named = before;
    let mut n = count;
    let mut at = 0;
    // `at` steps from line to line by where the newline stands, so it counts no index.
    while at < t.len() {
        let stop = chunks::inner::find(t, at, t.len());
        if stop == t.len() {
            return Survey {
                count: n,
                named,
                at,
                good: true,
            };
        }
        let raw = position_text::inner::read_raw(&t[at..stop], Edition::A);
        if let Form::OutOfForm = raw.form {
            return Survey {
                count: n,
                named,
                at,
                good: false,
            };
        }
        n += 1;
        named = note(named, n, accept::inner::judge(raw.position));
        at = stop + 1;
    }
    Survey {
        count: n,
        named,
        at,
        good: true,
    }
}
