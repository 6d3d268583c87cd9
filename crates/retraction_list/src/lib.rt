// The list of the Rust's retraction_gen.rs: 47 places and a length.
#![tactic(auto)]

pub mod inner; // inner.rt: filling it

// Whether the retraction may, must or must not give back a man, or is un-en-passant.
#[derive(Clone, Copy)]
pub enum UnCaptureKind {
    Optional,
    Necessary,
    Forbidden,
    UnEnPassant,
}

// A man on the source goes back to any of the targets.
#[derive(Clone, Copy)]
pub struct SourceAndTargets {
    pub source: u8,
    pub targets: u64,
    pub kind: UnCaptureKind,
    pub unpromotion: bool,
}

// `full` says that a 48th entry was asked for.
#[derive(Clone, Copy)]
pub struct RetractionList {
    pub entries: [SourceAndTargets; 47],
    pub len: usize,
    pub full: bool,
}
