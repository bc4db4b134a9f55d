//! What marks set.

/// The greatest colour: red, green and blue in a byte each.
pub const COLOURS: u32 = 0xff_ffff;

/// What a mark sets.
#[derive(Clone, Copy, Debug, PartialEq, Eq)]
pub enum Value {
    /// Bold, or plain again.
    Bold(bool),
    /// Italic, or upright again.
    Italic(bool),
    /// A colour, at most `COLOURS`: red, green and blue in a byte each.
    Colour(u32),
}

/// A kind of values: a mark takes the place of earlier ones of its kind.
#[derive(Clone, Copy, Debug, PartialEq, Eq)]
pub enum Kind {
    /// Bold or plain.
    Weight,
    /// Italic or upright.
    Slope,
    /// Colours.
    Hue,
}

/// The values of a cell.
#[derive(Clone, Copy, Debug, PartialEq, Eq)]
pub struct Values {
    /// Whether the cell is bold.
    pub bold: bool,
    /// Whether it is italic.
    pub italic: bool,
    /// Its colour, if it has one.
    pub colour: Option<u32>,
}
