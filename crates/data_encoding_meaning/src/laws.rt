//! Laws of the definitions: the contract of each function is a theorem, and a call does nothing.
//!
//! Each law is for encodings that are built from a specification. The laws in this module are for
//! users. The module [`steps`] has the steps of the proof that a decoder reads a text in pieces.

ghost use Rattle.std.specs.Prelude.{◌<◌};
ghost use Rattle.data_encoding_meaning.specs.text.Base.{Base};
ghost use Rattle.data_encoding_meaning.specs.text.Lengths.{alignment};
ghost use Rattle.data_encoding_meaning.specs.specification.Fields.{IsSpecified};
ghost use Rattle.data_encoding_meaning.specs.laws.Canonical.{Canonical, NotCanonical};
ghost use Rattle.data_encoding_meaning.specs.specification.OneLayout.{Layouts, OneLayout};
ghost use Rattle.data_encoding_meaning.specs.laws.Laws.{JoinDecode, JoinEncode, JoinFault, NoOrder, OneMeaning, Order, Resume, RoundTrip, SoundMeans, SpecificationAgain, Unpadded};
ghost use Rattle.data_encoding_meaning.specs.laws.Compared.{OrderOfData, OrderOfTexts};
ghost use Rattle.data_encoding_meaning.specs.laws.Eighteen.{CanonicalByCauses, SixAreCanonical, SixAreOrdered};
ghost use Rattle.data_encoding_meaning.specs.laws.FaultStays.{FaultStays, GroupFaultStays, NoFaultBefore};
ghost use Rattle.data_encoding_meaning.specs.laws.Layers.{RunFault, RunTold, SymbolsTold};
ghost use Rattle.data_encoding_meaning.specs.laws.Rules.{EighteenRules};
ghost use Rattle.data_encoding_meaning.specs.laws.Told.{FaultTold, SymbolTold, TrailingTold, WholeTold};
ghost use Rattle.data_encoding_meaning.specs.laws.Tight.{LengthAgain, LengthOfText, MeansMost};
ghost use Rattle.data_encoding_meaning.specs.laws.Verdicts.{FixedLength, Injective, MeansSound};
ghost use Rattle.data_encoding_meaning.specs.laws.SameMeaning.{FaultExchanged, MeansExchanged, OwnForm, OwnForms, OwnText, SameButSymbols, SameInBoth, SameKeptBytes, Translated};

pub mod steps;

/// States that each encoding is built from its own specification.
pub fn specification_again()
    ensures { SpecificationAgain }
{}

/// States the rules of each predefined encoding, by name.
///
/// These are the width, the order of bits, the padding, the lines, the ignored bytes, whether
/// trailing bits are checked, and whether texts may be concatenated.
pub fn eighteen()
    ensures { EighteenRules }
{}

/// States that data may be encoded in pieces: the texts of the pieces, joined, are the text of the
/// data.
///
/// The length of each piece except the last must be a multiple of `encode_align`, which is never 0.
pub fn join_encode()
    ensures join { JoinEncode }
    ensures some { (base : Base) → IsSpecified base → 0 < alignment base }
{}

/// States that the text of data means the data.
pub fn round_trip()
    ensures { RoundTrip }
{}

/// States that a text means at most one list of bytes.
pub fn one_meaning()
    ensures { OneMeaning }
{}

/// States that a text means data if and only if it is valid and the data is its sound bytes.
pub fn sound_text()
    ensures sound { SoundMeans }
    ensures meant { MeansSound }
{}

/// States how the symbols of a text give its data, for an encoding without padding.
///
/// The bits of the symbols are the bits of the data, followed by fewer bits than a symbol has.
pub fn unpadded()
    ensures { Unpadded }
{}

/// States that different data has different texts.
///
/// If the encoding is canonical, each text that means n bytes has the length that `encode_len`
/// returns for n.
pub fn injective()
    ensures differ { Injective }
    ensures length { FixedLength }
{}

/// States when two texts, joined, mean their data, joined.
///
/// They do in two cases: the encoding is padded, and its texts may be concatenated or the first has
/// no padding; or a symbol has 1, 2 or 4 bits.
pub fn join_decode()
    ensures { JoinDecode }
{}

/// States which encodings without lines keep the order of data: exactly the ordered ones.
///
/// An encoding is ordered if its most significant bit comes first, its symbols ascend, and its
/// padding comes before each symbol. Six of the sixteen predefined encodings without lines are
/// ordered.
pub fn order()
    ensures kept { Order }
    ensures broken { NoOrder }
    ensures data { OrderOfData }
    ensures texts { OrderOfTexts }
    ensures sixteen { SixAreOrdered }
{}

/// States when the length of a text determines the length of its data.
///
/// If no byte is ignored and there is no padding, a text means exactly as many bytes as
/// `decode_len` returns for its length, and its length is `encode_len` of that number. If there are
/// no lines and no padding, `decode_len` undoes `encode_len`.
pub fn tight()
    ensures most { MeansMost }
    ensures fixed { LengthOfText }
    ensures again { LengthAgain }
{}

/// States that a fault of whole groups is also the fault of every longer text, unless the length of
/// that text is a fault.
///
/// If the whole groups are valid, no longer text has a fault before their end. Ignored bytes belong
/// to no group.
pub fn fault_stays()
    ensures groups { GroupFaultStays }
    ensures text { FaultStays }
    ensures before { NoFaultBefore }
{}

/// States how the fault of a text follows from its bytes, for a valid length and an encoding
/// without padding and ignored bytes.
///
/// The fault is an invalid symbol if and only if some byte is not a symbol. It is at the first such
/// byte. If each byte is a symbol, the fault is trailing bits if and only if they are checked and
/// not all zeros. It is at the last byte. If a symbol has 1, 2 or 4 bits, there are no trailing
/// bits.
pub fn fault_told()
    ensures told { FaultTold }
    ensures symbol { SymbolTold }
    ensures trailing { TrailingTold }
    ensures whole { WholeTold }
{}

/// States the fault of a text in which no byte is ignored.
///
/// If ignored bytes count as invalid, the fault is the fault of the length, or else the first fault
/// of a group; the groups are consecutive bytes of the text. A text of a valid length in which no
/// byte is ignored has the same fault in the encoding itself, and `decode_mut` reads and writes as
/// far.
pub fn run_told()
    ensures fault { RunFault }
    ensures same { RunTold }
{}

/// States that a valid number of bytes gives data, or the index of the first byte that is not a
/// symbol.
///
/// The data does not depend on the trailing bits. If every byte is a symbol, the only possible
/// fault is the trailing bits, if they are checked.
pub fn symbols_told()
    ensures { SymbolsTold }
{}

/// States which encodings are canonical: there, a text that means data is the text of the data.
///
/// An encoding is canonical if and only if no byte is ignored or translated, trailing bits are
/// checked, and padded texts may not be concatenated. Six of the eighteen predefined encodings are
/// canonical.
pub fn canonical()
    ensures only { Canonical }
    ensures causes { CanonicalByCauses }
    ensures eighteen { SixAreCanonical }
{}

/// States that each cause why an encoding is not canonical gives two different texts that mean the
/// same data.
pub fn not_canonical()
    ensures { NotCanonical }
{}

/// States the fault of a text that follows another.
///
/// If the first text means data and may be followed, as in [`join_decode`], the fault of the second
/// stays the same. The length of the first text is added to its position. The data before the fault
/// follows the data of the first.
pub fn join_fault()
    ensures { JoinFault }
{}

/// States that no two encodings have the same layout, and which bytes are the layout of an
/// encoding.
pub fn one_layout()
    ensures one { OneLayout }
    ensures rules { Layouts }
{}

/// States that the decoding of a piece that stopped at a fault can be resumed.
///
/// The bytes of the piece that were not read, followed by the next piece, have the meaning and the
/// fault of the whole. The bytes that were read must be a text that may be followed, as in
/// [`join_decode`]. A piece without a fault is read whole; then [`join_decode`] and [`join_fault`]
/// apply.
pub fn resume()
    ensures { Resume }
{}

/// States that texts that differ only in ignored bytes mean the same data.
pub fn same_kept_bytes()
    ensures { SameKeptBytes }
{}

/// States that texts with the same characters, one by one as by `interpret_byte`, have the same
/// fault at the same position and mean the same data.
///
/// So a translated byte may be replaced by the symbol or the padding character that it means. If
/// translated bytes are the only reason why an encoding is not canonical, two texts that mean data
/// mean the same data if and only if they are equal after this replacement. The replaced text is
/// then the text of its data.
pub fn translated()
    ensures same { Translated }
    ensures own_form { OwnForm }
    ensures own_forms { OwnForms }
    ensures text { OwnText }
{}

/// States how two encodings compare that differ only in their symbols.
///
/// The text of data in the other encoding is its text in the first, with each symbol replaced by
/// the other encoding's symbol of the same value, and each padding character by the other's.
///
/// If both are built from specifications, agree on the check of trailing bits and on concatenation,
/// and ignore the same bytes, this extends to any text. With its characters replaced, it means the
/// same data. It has the same fault at the same position if no byte that is invalid in the first
/// has a meaning in the other. More generally, two texts whose characters are the same, one by one,
/// each in its encoding, have the same fault and mean the same data.
pub fn same_but_symbols()
    ensures text { SameButSymbols }
    ensures both { SameInBoth }
    ensures means { MeansExchanged }
    ensures fault { FaultExchanged }
{}
