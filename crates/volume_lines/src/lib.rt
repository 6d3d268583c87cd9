// Old lines, texts of edition A with a newline each, looked at one by one: 14, and 1 to 6. What they are stands in specs/Register.
#![tactic(auto)]

use refusal::Verdict;

pub mod inner; // inner.rt: the lines of a slice, and the first that is refused

// The verdict on some boards: how the first that is refused is refused, and its line, counted from 1; 0 where none is.
#[derive(Drop)]
pub struct Named {
    pub verdict: Verdict,
    pub line: usize,
}

// Lines looked at: how many are in form, the verdict on their boards, the place behind them, and whether all that have a newline are in form.
#[derive(Drop)]
pub struct Survey {
    pub count: usize,
    pub named: Named,
    pub at: usize,
    pub good: bool,
}
