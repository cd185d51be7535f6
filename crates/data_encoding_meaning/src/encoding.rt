//! The order of bits, and the meaning of a byte in a text.

ghost use Rattle.std.specs.Prelude.{◌≡◌};
ghost use Rattle.data_encoding_meaning.specs.text.Base.{is_ignored, is_invalid, is_padding, value_of};

/// The order in which the bits of a byte are encoded.
#[derive(Clone, Copy, Debug, PartialEq, Eq)]
pub enum BitOrder {
    /// The bit of weight 128 comes first, as in RFC 4648.
    MostSignificantFirst,

    /// The bit of weight 1 comes first, as in DNSCurve.
    LeastSignificantFirst,
}

/// The meaning of a byte in a text.
#[derive(Clone, Copy, Debug, PartialEq, Eq)]
pub enum Character {
    /// A symbol, which encodes the bits of its value.
    Symbol {
        /// The value, less than the number of symbols.
        value: usize,
    },

    /// Padding, which fills up the last group of a text.
    Padding,

    /// An ignored byte, for example a line end.
    Ignored,

    /// A byte that is not allowed in a text.
    Invalid,
}

impl Character {
    /// Returns the value of a symbol, and `None` for any other character.
    pub fn is_symbol(self) -> Option<usize>
        ensures { result ≡ value_of self }
    {
        match self {
            Character::Symbol { value } => Some(value),
            _ => None,
        }
    }

    /// Returns `true` if the character is padding.
    pub fn is_padding(self) -> bool
        ensures { result ≡ is_padding self }
    {
        matches!(self, Character::Padding)
    }

    /// Returns `true` if the character is ignored.
    pub fn is_ignored(self) -> bool
        ensures { result ≡ is_ignored self }
    {
        matches!(self, Character::Ignored)
    }

    /// Returns `true` if the character is invalid.
    pub fn is_invalid(self) -> bool
        ensures { result ≡ is_invalid self }
    {
        matches!(self, Character::Invalid)
    }
}
