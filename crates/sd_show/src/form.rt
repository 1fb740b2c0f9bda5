//! The tables of forms and fields.

use crate::fields::Field;

/// The form of a value in a text and in a message.
#[derive(Clone, Copy)]
pub enum Form {
    /// A word, in decimal.
    Number,
    /// A bool, as 0 or 1.
    Flag,
    /// A word up to 65,535, in decimal.
    Port,
    /// An address, as four numbers joined by dots.
    Address,
    /// So many bytes, as a byte run.
    Fixed { len: u32 },
    /// At most so many bytes, as a byte run.
    Run { most: u32 },
    /// At most so many bytes, between quotation marks.
    Quoted { most: u32 },
    /// Two values, a comma between them.
    Pair(&'static Form, &'static Form),
    /// In parentheses.
    Row(&'static Form),
    /// The items of a list, in brackets, a comma between each two.
    List(&'static Form),
}

/// The fields of arguments or results.
#[derive(Clone, Copy)]
pub enum Fields {
    Nothing,
    One(Field),
    /// The one and then the other.
    Both(&'static Fields, &'static Fields),
    /// Those of a variant, whose number is known without the bytes.
    Numbered(u32, &'static Fields),
    /// A status, and these where it is 0.
    Checked(&'static Fields),
}
