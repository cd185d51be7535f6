//! A reference to an encoding, as a type that can be copied.

ghost use Rattle.std.specs.Prelude.{◌≡◌};
ghost use Rattle.data_encoding.specs.Encoding.{KeepsRules};
ghost use Rattle.data_encoding.specs.PlainTables.{plain_tables};

use crate::encoding::EncodingRef;
use crate::encoding::plain_encoding::PlainFields;

/// A reference to an encoding that can be copied.
///
/// It has the two references of an [`EncodingRef`], which has the calls. A type that borrows an
/// encoding holds this if it is to be `Copy`.
#[derive(Clone, Copy, Debug, Drop)]
pub struct LentEncoding<'a> {
    pub(crate) fields: &'a PlainFields,

    // The separator after each line.
    pub(crate) separator: &'a [u8],

    ghost kept: { ∥ KeepsRules (plain_tables fields.now separator.now) ∥₁ },
}

impl<'a> LentEncoding<'a> {
    ghost use Rattle.data_encoding.specs.Lent.{base_of_lent};

    /// Returns the reference to the encoding, with its calls.
    #[inline(always)]
    #[tactic(auto, unfolding(crate::specs::Lent::base_of_lent))]
    pub fn by_ref(&self) -> EncodingRef<'a>
        ensures { result ≡ base_of_lent self.now }
    {
        EncodingRef {
            fields: self.fields,
            separator: self.separator,
        }
    }
}

impl<'a> EncodingRef<'a> {
    ghost use Rattle.data_encoding.specs.Lent.{base_of_lent};

    /// Returns the reference to the encoding as a type that can be copied.
    #[inline(always)]
    #[tactic(auto, unfolding(crate::specs::Lent::base_of_lent))]
    pub fn lend(&self) -> LentEncoding<'a>
        ensures { base_of_lent result ≡ self.now }
    {
        LentEncoding {
            fields: self.fields,
            separator: self.separator,
        }
    }
}
