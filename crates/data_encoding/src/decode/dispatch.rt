//! Decoding a text: its bit order, its look-up and its width are chosen once.

ghost use Rattle.data_encoding_meaning.specs.text.Base.{IsWidth};
ghost use Rattle.data_encoding_kernel.specs.Tables.{HoldsValues};
ghost use Rattle.data_encoding.specs.Endings.{FindsSymbols, HasBegun, HasReachedTo};
ghost use Rattle.data_encoding.specs.Progress.{HasExactOutput};
ghost use Rattle.data_encoding.specs.Steps.{HasEnded};

use crate::decode::Stop;
use crate::decode::decoding_loop::progress_at;
use crate::decode::groups::Entries;
use crate::encoding::EncodingRef;
use data_encoding_kernel::ignore::IgnoredBytes;
use data_encoding_kernel::platform::has_simd;
use data_encoding_kernel::simd::decode::affine::Affine;
use data_encoding_kernel::simd::decode::look_up::LookUp;
use data_encoding_kernel::simd::decode::table_rows::Rows;

impl EncodingRef<'_> {
    /// Decodes a text that is valid and has ignored bytes only at its end, and returns `true`.
    ///
    /// Otherwise returns `false` after some whole groups, whose lengths are in `stop`.
    // Not inlined, so that `decode_mut` is small enough to be inlined.
    #[inline(never)]
    pub(crate) fn decode_valid(&self, input: &[u8], output: &mut [u8], stop: &mut Stop) -> bool
        requires exact { HasExactOutput self.now input.now output.old }
        ensures begun { HasBegun self.now input.now output.new stop.new result }
        ensures width { IsWidth self.now.width }
    {
        if !has_simd() {
            return self.decode_in_words(input, output, stop);
        }
        let values = &self.fields.values;
        if values.is_affine() {
            return self.decode_valid_by::<Affine>(&Affine::of(values), input, output, stop);
        }
        self.decode_valid_by::<Rows>(&Rows::of(values), input, output, stop)
    }

    /// Like `decode_valid`, with a look-up.
    #[inline(always)]
    fn decode_valid_by<L: LookUp>(
        &self,
        look_up: &L,
        input: &[u8],
        output: &mut [u8],
        stop: &mut Stop,
    ) -> bool
        requires finds { FindsSymbols L.holds self.now look_up.now }
        requires exact { HasExactOutput self.now input.now output.old }
        ensures { HasBegun self.now input.now output.new stop.new result }
    {
        if input.len() > 16 {
            return self.decode_longer::<L>(look_up, input, output, stop);
        }
        self.decode_short::<L>(look_up, input, output, stop)
    }

    /// Decodes the bytes of a text after those read, up to the first fault. Returns `true` if there
    /// is none.
    // Not inlined, so that short texts do not pay for the stack of the loop.
    #[inline(never)]
    pub(crate) fn decode_rest(&self, input: &[u8], output: &mut [u8], stop: &mut Stop) -> bool
        requires at { HasReachedTo self.now input.now stop.old.read stop.old.written output.old }
        ensures { HasEnded self.now input.now output.new stop.new result }
    {
        let table = &self.fields.values;
        if table.is_affine() {
            let look_up = &Affine::of(table);
            return self.decode_rest_by::<Affine>(&table.entries, look_up, input, output, stop);
        }
        let look_up = &Rows::of(table);
        self.decode_rest_by::<Rows>(&table.entries, look_up, input, output, stop)
    }

    /// Like `decode_rest`, with a look-up.
    #[inline(always)]
    fn decode_rest_by<L: LookUp>(
        &self,
        values: &[u8; 256],
        look_up: &L,
        input: &[u8],
        output: &mut [u8],
        stop: &mut Stop,
    ) -> bool
        requires values { HoldsValues self.now values.now }
        requires held { L.holds values.now look_up.now }
        requires at { HasReachedTo self.now input.now stop.old.read stop.old.written output.old }
        ensures { HasEnded self.now input.now output.new stop.new result }
    {
        let ignored = &IgnoredBytes::of(&self.fields.values.entries);
        let entries = Entries {
            values,
            look_up,
            join: self.join(),
            ignored,
        };
        let at = progress_at(ignored, stop.read, stop.written, input);
        self.decode_steps::<L>(entries, at, input, output, stop)
    }
}
