// The text of a position: four fields, printed and read. Nothing is tested but the form: whether the men may stand so is for the crates above. What a text
// is stands in specs/Form.
#![tactic(auto)]

use laws::Position;
pub use men_field::Line;

pub mod inner; // inner.rt: the printer, the reader, and the copy into a lent slice

// Whether a text has the form.
#[derive(Clone, Copy)]
pub enum Form {
    InForm,
    OutOfForm,
}

// What a text says: the empty position where it has not the form.
#[derive(Clone, Copy)]
pub struct Raw {
    pub form: Form,
    pub position: Position,
}

// What is read so far, leniently: a text out of form gives something too.
#[derive(Clone, Copy)]
pub struct Scan {
    pub men: [u8; 64],
    pub at: usize,
    pub field: u8,
    pub turn: u8,
    pub rights: u8,
    pub square: u8,
}
