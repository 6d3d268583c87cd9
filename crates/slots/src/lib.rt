// Why a list of retractions is not written, packed, into lent 16-bit slots.
#![tactic(auto)]

ghost use Rattle.std.specs.Prelude.{◌≡◌};
ghost use Rattle.slots.specs.Slots.{refusal_of};

use refusal::Refusal;

// How many slots are needed, or why the board is refused.
#[derive(Clone, Copy)]
pub enum Unlisted {
    Room(usize),
    Refused(Refusal),
}

// 13 where there is no room.
impl From<Unlisted> for Refusal {
    ghost from_gives = { λ u r. r ≡ refusal_of u };

    fn from(why: Unlisted) -> Refusal {
        match why {
            Unlisted::Room(_) => Refusal::Room,
            Unlisted::Refused(r) => r,
        }
    }
}
