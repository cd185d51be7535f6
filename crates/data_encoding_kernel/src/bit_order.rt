//! The order of bits, as a type.

ghost use Rattle.data_encoding_meaning.specs.declared.encoding.BitOrder.{BitOrder};
ghost use Rattle.data_encoding_meaning.specs.declared.encoding.BitOrder.TheVariants.{LeastSignificantFirst as LeastFirst, MostSignificantFirst as MostFirst};

use data_encoding_meaning::encoding::BitOrder;

/// The order of bits, as a constant.
///
/// Each digit is then at a known bit of its word, even in functions that are not inlined.
pub trait ConstantOrder {
    ghost ORDER: { BitOrder };

    const ORDER: BitOrder;
}

/// The most significant bit first.
#[derive(Clone, Copy, Drop)]
pub struct MostSignificantFirst;

impl ConstantOrder for MostSignificantFirst {
    ghost ORDER = { MostFirst };

    const ORDER: BitOrder = BitOrder::MostSignificantFirst;
}

/// The least significant bit first.
#[derive(Clone, Copy, Drop)]
pub struct LeastSignificantFirst;

impl ConstantOrder for LeastSignificantFirst {
    ghost ORDER = { LeastFirst };

    const ORDER: BitOrder = BitOrder::LeastSignificantFirst;
}
