// What a hexadecimal digit of a line stands for.
#![tactic(auto)]

ghost use Rattle.std.specs.Prelude.{◌≡◌};
ghost use Rattle.digits.specs.Digits.{hex_digit};

// What a hexadecimal digit stands for, 16 for any other byte.
pub fn hex_digit(b: u8) -> u64
    ensures { result ≡ hex_digit b }
{
    match b {
        b'0'..=b'9' => (b - b'0') as u64,
        b'a'..=b'f' => (b - b'a') as u64 + 10,
        _ => 16,
    }
}
