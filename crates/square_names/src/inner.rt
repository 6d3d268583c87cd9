// A square's name, and the squares of a set.
ghost use Rattle.std.specs.Prelude.{◌≡◌, ◌+◌, ◌≤◌, length};
ghost use Rattle.output.specs.Appending.{Adds};
ghost use Rattle.squares.specs.Members.{members, concat};
ghost use Rattle.men_field.specs.Placement.{square_name};
ghost use Rattle.square_names.specs.Names.{spaced_name, squares_text};

fn name(square: u8) -> [u8; 2]
    ensures { result ≡ square_name square }
{
    [b'a' + square % 8, b'1' + square / 8]
}

// A square's name behind a space.
fn put_spaced(out: &mut [u8], len: usize, square: u8) -> usize
    ensures { Adds out.old len (spaced_name square) result out.new }
{
    let [file, rank] = name(square);
    output::put_bytes(out, len, &[b' ', file, rank]).unwrap_or(len)
}

// Each square of a set, the lowest first, behind a space.
fn put_all_spaced(out: &mut [u8], len: usize, set: u64) -> usize
    requires { len + length (concat spaced_name (members set)) ≤ length out.old }
    ensures { Adds out.old len (concat spaced_name (members set)) result out.new }
{
    let mut at = len;
    for k in squares::each(set) {
        at = put_spaced(out, at, k);
    }
    at
}

// The squares of a set, the lowest first, with single spaces between, or a dash. 64 squares have 191 bytes.
pub fn put_squares(out: &mut [u8], len: usize, set: u64) -> usize
    requires { len + 191 ≤ length out.old }
    ensures { Adds out.old len (squares_text set) result out.new }
{
    if set == 0 {
        return output::put_bytes(out, len, b"-").unwrap_or(len);
    }
    let first = squares::lowest(set);
    let at = output::put_bytes(out, len, &name(first)).unwrap_or(len);
    put_all_spaced(out, at, squares::without(set, first))
}
