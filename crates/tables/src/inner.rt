// Squares between two squares. `t` is the table of `between_table`, lent.
ghost use Rattle.std.specs.Prelude.{◌≡◌, ◌<◌};
ghost use Rattle.geometry.specs.Lines.{IsBetween, between_of, free, clear};

// The squares strictly between two squares.
pub fn between(t: &[u64; 4096], a: u8, b: u8) -> u64
    requires { IsBetween t.now × (a < 64) × (b < 64) }
    ensures { result ≡ between_of a b }
{
    t[(a as usize) * 64 + (b as usize)]
}

// No member of `occ` stands between two squares.
pub fn is_clear(t: &[u64; 4096], occ: u64, a: u8, b: u8) -> bool
    requires { IsBetween t.now × (a < 64) × (b < 64) }
    ensures { result ≡ clear (free occ) a b }
{
    between(t, a, b) & occ == 0
}
