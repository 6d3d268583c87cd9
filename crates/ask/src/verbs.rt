// Whose verb a line begins with. Each crate of verbs answers 0 bytes to a line that has none of its own, and no answer is empty. `t` is the table of
// squares between, lent.
ghost use Rattle.geometry.specs.Lines.{IsBetween};
ghost use Rattle.puts.specs.inner.Growing.{Grows};

// The answer and a newline go into `out`; answers how many bytes there are.
pub(super) fn reply(t: &[u64; 4096], line: &[u8], out: &mut [u8; 65536]) -> usize
    requires { IsBetween t.now }
    ensures { Grows 0 result }
{
    let n = by_verb(t, line, out);
    puts::inner::bytes(out, n, b"\n")
}

// A record, a solution and a volume may be of any length, so that the verbs by an edition, `solution` and those of volumes have the whole line, and the
// others its first 512 bytes.
fn by_verb(t: &[u64; 4096], line: &[u8], out: &mut [u8; 65536]) -> usize
    requires { IsBetween t.now }
    ensures { Grows 0 result }
{
    let editions = edition_verbs::inner::answer_with(t, line, out);
    if editions > 0 {
        return editions;
    }
    let solutions = solution_verb::inner::answer(line, out);
    if solutions > 0 {
        return solutions;
    }
    let volumes = volume_verb::inner::answer(line, out);
    if volumes > 0 {
        return volumes;
    }
    let n = line.len();
    if n < 512 {
        return by_short(t, line, out);
    }
    by_short(t, &line[..512], out)
}

fn by_short(t: &[u64; 4096], line: &[u8], out: &mut [u8; 65536]) -> usize
    requires { IsBetween t.now }
    ensures { Grows 0 result }
{
    let boards = board_verbs::inner::answer_with(t, line, out);
    if boards > 0 {
        return boards;
    }
    let cursors = cursor_verbs::inner::answer_with(t, line, out);
    if cursors > 0 {
        return cursors;
    }
    let lists = list_verbs::inner::answer_with(t, line, out);
    if lists > 0 {
        return lists;
    }
    let gates = gate_verb::inner::answer(line, out);
    if gates > 0 {
        return gates;
    }
    let desks = desks_verb::inner::answer(line, out);
    if desks > 0 {
        return desks;
    }
    puts::inner::bytes(out, 0, b"unknown verb")
}
