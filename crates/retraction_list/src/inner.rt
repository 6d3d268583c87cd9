// Filling the list.
ghost use Rattle.std.specs.Prelude.{◌≡◌, [], ◌∷◌};
ghost use Rattle.retraction_list.specs.Entries.{no_entry, entry_of, holding, full_list, offered, capture_kind};
ghost use Rattle.retraction_list.specs.inner.Pushing.{pushed, pushed_all};

use super::{RetractionList, SourceAndTargets, UnCaptureKind};

fn no_entry() -> SourceAndTargets
    ensures { result ≡ no_entry }
{
    SourceAndTargets {
        source: 0,
        targets: 0,
        kind: UnCaptureKind::Optional,
        unpromotion: false,
    }
}

pub fn empty() -> RetractionList
    ensures { result ≡ holding [] }
{
    let e = no_entry();
    RetractionList {
        entries: [e; 47],
        len: 0,
        full: false,
    }
}

// The answer where a 48th entry was asked for.
pub fn overfull() -> RetractionList
    ensures { result ≡ full_list }
{
    let mut out = empty();
    out.full = true;
    out
}

fn push(list: RetractionList, e: SourceAndTargets) -> RetractionList
    ensures { result ≡ pushed list e }
{
    let at = list.len;
    let mut out = list;
    if at >= 47 {
        out.full = true;
        return out;
    }
    out.entries[at] = e;
    out.len = at + 1;
    out
}

// `movelist.push_unchecked(SourceAndTargets::new(..))`
pub fn put(
    list: RetractionList,
    source: u8,
    targets: u64,
    kind: UnCaptureKind,
    unpromotion: bool,
) -> RetractionList
    ensures { result ≡ pushed_all list (entry_of source targets kind unpromotion ∷ []) }
{
    let e = SourceAndTargets {
        source: source,
        targets: targets,
        kind: kind,
        unpromotion: unpromotion,
    };
    push(list, e)
}

// The same, under `if targets != EMPTY`.
pub fn offer(
    list: RetractionList,
    source: u8,
    targets: u64,
    kind: UnCaptureKind,
    unpromotion: bool,
) -> RetractionList
    ensures { result ≡ pushed_all list (offered source targets kind unpromotion) }
{
    if targets == 0 {
        return list;
    }
    put(list, source, targets, kind, unpromotion)
}

pub fn capture_kind(pinned: bool) -> UnCaptureKind
    ensures { result ≡ capture_kind pinned }
{
    if pinned {
        UnCaptureKind::Necessary
    } else {
        UnCaptureKind::Optional
    }
}
