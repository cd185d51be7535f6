//! The reasons to refuse a specification.

/// The reason why a specification is refused, with the byte or the number that is the cause.
#[derive(Clone, Copy, Debug)]
pub enum Refusal {
    /// The number of symbols is not 2, 4, 8, 16, 32 or 64.
    BadSize,

    /// A character is not ASCII.
    NotAscii,

    /// The given byte has two meanings.
    Duplicate(u8),

    /// There is a padding character, but no text of this number of symbols needs padding.
    ExtraPadding,

    /// The width of lines or the length of the separator is above 255.
    WrapLength,

    /// The width of lines is not a multiple of the given number.
    WrapWidth(u8),

    /// The two texts of a translation differ in length.
    FromTo,

    /// A byte is translated to the given byte, which has no meaning.
    Undefined(u8),
}
