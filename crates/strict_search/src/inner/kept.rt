// The sets of all sources in one array, five numbers of each.
ghost use Rattle.std.specs.Prelude.{◌≡◌, ◌<◌, length};
ghost use Rattle.strict_search.specs.inner.Keeping.{kept_at, Keeps};

use strict_sets::Targets;

pub(super) fn keep(kept: &mut [u64; 320], s: usize, w: Targets)
    requires { (s < 64) × (length kept.old ≡ 320) }
    ensures { Keeps kept.old s w kept.new }
{
    let i = s * 5;
    kept[i] = w.plain;
    kept[i + 1] = w.taking;
    kept[i + 2] = w.marked;
    kept[i + 3] = w.both;
    kept[i + 4] = w.men;
}

pub(super) fn kept_at(kept: &[u64; 320], s: usize) -> Targets
    requires { s < 64 }
    ensures { result ≡ kept_at kept.now s }
{
    let i = s * 5;
    Targets {
        plain: kept[i],
        taking: kept[i + 1],
        marked: kept[i + 2],
        both: kept[i + 3],
        men: kept[i + 4],
    }
}
