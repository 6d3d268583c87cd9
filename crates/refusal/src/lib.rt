// Refusals and their numbers: what is said of a board, a retraction, a text or a lent slice that is refused.
#![tactic(auto)]

ghost use Rattle.std.specs.Prelude.{◌≡◌};
ghost use Rattle.refusal.specs.Refusals.{number_of};

// One variant for each number of document 01, in its order.
#[derive(Clone, Copy)]
pub enum Refusal {
    Men,
    Kings,
    Pawn,
    Rights,
    Passant,
    Check,
    Stale,
    Full,
    Source,
    Target,
    Held,
    Step,
    Room,
    Text,
}

// What tests come to: nothing, or the refusal of the first that fails.
pub type Verdict = Result<(), Refusal>;

// The number of a refusal.
pub fn number(r: Refusal) -> u8
    ensures { result ≡ number_of r }
{
    match r {
        Refusal::Men => 1,
        Refusal::Kings => 2,
        Refusal::Pawn => 3,
        Refusal::Rights => 4,
        Refusal::Passant => 5,
        Refusal::Check => 6,
        Refusal::Stale => 7,
        Refusal::Full => 8,
        Refusal::Source => 9,
        Refusal::Target => 10,
        Refusal::Held => 11,
        Refusal::Step => 12,
        Refusal::Room => 13,
        Refusal::Text => 14,
    }
}
