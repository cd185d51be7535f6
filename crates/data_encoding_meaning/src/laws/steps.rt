//! Steps of the proof that a decoder reads a text in pieces, one piece at a time.

ghost use Rattle.data_encoding_meaning.specs.decoding.Pieces.{AreWhole, CountsGroups, EndsNowhere, HoldsPiece, IsNoLonger, JoinsUnpadded, JudgesGroup, KeepsBytes, KeepsEach, KeepsFault, MeansWhole, ReadsFaulty, ReadsGroup, ReadsNothing, ReadsSound, TellsBytes, TellsEnd, TellsFault};

/// States that a text may be decoded piece by piece.
///
/// The state of the decoder and the data of the whole groups follow from the state before and the
/// next piece. At the end, the fault of the text and its data follow from the state. A group is
/// checked and decoded as a text of its own. A piece of whole groups that means data is read at
/// once, if no group before it is final. A piece is whole groups if it is padded, if eight bits are
/// whole symbols, or, if nothing is ignored, by its length. The fault of a whole group of a piece
/// is read at once too.
pub fn pieces()
    ensures nothing { ReadsNothing }
    ensures held { HoldsPiece }
    ensures group { ReadsGroup }
    ensures faulty { KeepsFault }
    ensures grows { KeepsBytes }
    ensures verdict { TellsFault }
    ensures bytes { TellsBytes }
    ensures alone { JudgesGroup }
    ensures sound { ReadsSound }
    ensures stops { ReadsFaulty }
    ensures whole { AreWhole }
{}

/// States facts that follow from the length of a text.
///
/// For whole groups of symbols, `decode_len` returns as many whole groups of bytes. It never
/// returns more bytes than the text has. If nothing is ignored, each byte is kept. A text that
/// means whole groups of bytes is whole groups. Whether one of its groups is final depends on the
/// number of bytes and on whether texts may be concatenated. Texts without padding may always be
/// concatenated.
pub fn whole_groups()
    ensures bytes { CountsGroups }
    ensures most { IsNoLonger }
    ensures kept { KeepsEach }
    ensures joins { JoinsUnpadded }
    ensures ends_nowhere { EndsNowhere }
    ensures ends { TellsEnd }
    ensures whole { MeansWhole }
{}
