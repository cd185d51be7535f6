//! The sizes of a whole group for each width of a symbol.

ghost use Rattle.std.specs.Prelude.{ℕ, refl};
ghost use Rattle.std.proofs.Common.{lit<, lit≤};
ghost use Rattle.data_encoding_meaning.specs.text.Base.{IsGroup};

/// Calls a method with the type for `$width`, from 1 to 6, as its last type argument.
///
/// The width and the sizes of a group are then constants, and loops over a group are unrolled.
#[macro_export]
macro_rules! call_by_width {
    ($width:expr, $this:ident.$call:ident::<$($fixed:ident),*>($($argument:expr),*)) => {
        match $width {
            1 => $this.$call::<$($fixed,)* $crate::group_size::Base2>($($argument),*),
            2 => $this.$call::<$($fixed,)* $crate::group_size::Base4>($($argument),*),
            3 => $this.$call::<$($fixed,)* $crate::group_size::Base8>($($argument),*),
            4 => $this.$call::<$($fixed,)* $crate::group_size::Base16>($($argument),*),
            5 => $this.$call::<$($fixed,)* $crate::group_size::Base32>($($argument),*),
            _ => $this.$call::<$($fixed,)* $crate::group_size::Base64>($($argument),*),
        }
    };
}

/// The width of a symbol in bits, and the numbers of bytes and of symbols in a whole group.
///
/// They are constants, so that loops over a group are unrolled.
pub trait GroupSize {
    ghost WIDTH: { ℕ };

    ghost BYTES: { ℕ };

    ghost SYMBOLS: { ℕ };

    ghost is_group: { IsGroup WIDTH BYTES SYMBOLS };

    const WIDTH: usize;

    const BYTES: usize;

    const SYMBOLS: usize;
}

/// Symbols of one bit.
#[derive(Clone, Copy, Drop)]
pub struct Base2;

impl GroupSize for Base2 {
    ghost WIDTH = { 1 };

    ghost BYTES = { 1 };

    ghost SYMBOLS = { 8 };

    ghost is_group = { record {
      is_width = record { some = lit< tt; few = lit≤ tt };
      has_bytes = refl;
      has_symbols = refl;
    } };

    const WIDTH: usize = 1;

    const BYTES: usize = 1;

    const SYMBOLS: usize = 8;
}

/// Symbols of two bits.
#[derive(Clone, Copy, Drop)]
pub struct Base4;

impl GroupSize for Base4 {
    ghost WIDTH = { 2 };

    ghost BYTES = { 1 };

    ghost SYMBOLS = { 4 };

    ghost is_group = { record {
      is_width = record { some = lit< tt; few = lit≤ tt };
      has_bytes = refl;
      has_symbols = refl;
    } };

    const WIDTH: usize = 2;

    const BYTES: usize = 1;

    const SYMBOLS: usize = 4;
}

/// Symbols of three bits.
#[derive(Clone, Copy, Drop)]
pub struct Base8;

impl GroupSize for Base8 {
    ghost WIDTH = { 3 };

    ghost BYTES = { 3 };

    ghost SYMBOLS = { 8 };

    ghost is_group = { record {
      is_width = record { some = lit< tt; few = lit≤ tt };
      has_bytes = refl;
      has_symbols = refl;
    } };

    const WIDTH: usize = 3;

    const BYTES: usize = 3;

    const SYMBOLS: usize = 8;
}

/// Symbols of four bits.
#[derive(Clone, Copy, Drop)]
pub struct Base16;

impl GroupSize for Base16 {
    ghost WIDTH = { 4 };

    ghost BYTES = { 1 };

    ghost SYMBOLS = { 2 };

    ghost is_group = { record {
      is_width = record { some = lit< tt; few = lit≤ tt };
      has_bytes = refl;
      has_symbols = refl;
    } };

    const WIDTH: usize = 4;

    const BYTES: usize = 1;

    const SYMBOLS: usize = 2;
}

/// Symbols of five bits.
#[derive(Clone, Copy, Drop)]
pub struct Base32;

impl GroupSize for Base32 {
    ghost WIDTH = { 5 };

    ghost BYTES = { 5 };

    ghost SYMBOLS = { 8 };

    ghost is_group = { record {
      is_width = record { some = lit< tt; few = lit≤ tt };
      has_bytes = refl;
      has_symbols = refl;
    } };

    const WIDTH: usize = 5;

    const BYTES: usize = 5;

    const SYMBOLS: usize = 8;
}

/// Symbols of six bits.
#[derive(Clone, Copy, Drop)]
pub struct Base64;

impl GroupSize for Base64 {
    ghost WIDTH = { 6 };

    ghost BYTES = { 3 };

    ghost SYMBOLS = { 4 };

    ghost is_group = { record {
      is_width = record { some = lit< tt; few = lit≤ tt };
      has_bytes = refl;
      has_symbols = refl;
    } };

    const WIDTH: usize = 6;

    const BYTES: usize = 3;

    const SYMBOLS: usize = 4;
}
