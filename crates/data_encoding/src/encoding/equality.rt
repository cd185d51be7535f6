//! Copies of encodings, and their equality.

ghost use Rattle.std.specs.Prelude.{◌≡◌, MatchResult};

use super::{ASCII, Encoding, MOST_SYMBOLS, copied};
use std::alloc::AllocError;

// A copy does not allocate, and never fails.
impl Clone for Encoding {
    ghost use Rattle.std.specs.Prelude.{◌≡◌};

    ghost is_clone = { λ one copy. copy ≡ one };

    ghost is_infallible = { λ _. Unit {0} };

    fn clone(&self) -> Result<Encoding, AllocError>
        ensures cases { MatchResult result (λ copy. copy ≡ self.now) (λ _. ⊥) }
    {
        Ok(Encoding {
            fields: self.fields,
            separator: copied(self.separator.as_slice()),
        })
    }
}

impl PartialEq for Encoding {
    ghost use Rattle.std.specs.Prelude.{◌≡◌, ◌↔◌, IsTrue};
    ghost use Rattle.std.specs.Str.{bytes_eq};
    ghost use Rattle.std.specs.Ordering.{on};
    ghost use Rattle.std.specs.Cmp.{on_per, partial_equiv_from_equiv};
    ghost use Rattle.std.specs.Cmp.Lexicographic.{nat_list_eq_equiv};
    ghost use Rattle.data_encoding_meaning.specs.specification.Layout.{layout};

    ghost eq = { on layout bytes_eq };

    ghost laws = { on_per layout (partial_equiv_from_equiv nat_list_eq_equiv) };

    fn eq(&self, other: &Encoding) -> bool
        ensures value { result ≡ on layout bytes_eq self.now other.now }
        ensures same { IsTrue result ↔ (layout self.now ≡ layout other.now) }
        ensures base { IsTrue result ↔ (self.now ≡ other.now) }
    {
        // The small fields first, since most encodings differ there.
        let one = (
            self.fields.width,
            self.fields.order(),
            self.fields.checks_trailing_bits,
            self.fields.concatenates,
            self.fields.padding_character(),
            self.fields.column,
        );
        let another = (
            other.fields.width,
            other.fields.order(),
            other.fields.checks_trailing_bits,
            other.fields.concatenates,
            other.fields.padding_character(),
            other.fields.column,
        );
        // The first 64 symbols determine the table, and no byte from 128 on has a value.
        one == another
            && self.fields.symbols.entries[..MOST_SYMBOLS as usize]
                == other.fields.symbols.entries[..MOST_SYMBOLS as usize]
            && self.fields.values.entries[..ASCII as usize]
                == other.fields.values.entries[..ASCII as usize]
            && self.separator.as_slice() == other.separator.as_slice()
    }
}

impl Eq for Encoding {
    ghost use Rattle.std.specs.Cmp.{on_equiv};
    ghost use Rattle.std.specs.Cmp.Lexicographic.{nat_list_eq_equiv};
    ghost use Rattle.data_encoding_meaning.specs.specification.Layout.{layout};

    ghost laws = { on_equiv layout nat_list_eq_equiv };
}
