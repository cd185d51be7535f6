//! Canonical encodings: data has only one text in them.

ghost use Rattle.std.specs.Prelude.{◌≡◌, ◌==◌, ◌&&◌, ◌↔◌, IsTrue, length, not};
ghost use Rattle.data_encoding_meaning.specs.text.Base.{ignores_some, is_padded};
ghost use Rattle.data_encoding_meaning.specs.laws.Canonical.{IsCanonical, has_one_text};
ghost use Rattle.data_encoding_meaning.specs.specification.Fields.{IsSpecified};
ghost use Rattle.data_encoding_meaning.specs.specification.Layout.{translated_bytes};

use crate::encoding::{Encoding, EncodingRef};

impl EncodingRef<'_> {
    /// Like [`Encoding::is_canonical`].
    pub fn is_canonical(&self) -> bool
        ensures canonical { IsTrue result ↔ IsCanonical self.now }
        ensures causes { result ≡ has_one_text self.now }
    {
        self.has_one_meaning() && !self.translates()
    }

    /// Returns `true` if no two texts with bytes of different meanings decode to the same data.
    fn has_one_meaning(&self) -> bool
        ensures base { IsSpecified self.now }
        ensures value { result ≡ (self.now.checks_trailing_bits
            && not (is_padded self.now && self.now.concatenates) && not (ignores_some self.now)) }
    {
        self.fields.checks_trailing_bits
            && !(self.fields.is_padded() && self.fields.concatenates)
            && !self.fields.ignores
    }

    /// Returns `true` if some byte is translated.
    fn translates(&self) -> bool
        ensures { result ≡ not (length (translated_bytes self.now) == 0) }
    {
        self.tables().translations().from.len() != 0
    }
}
