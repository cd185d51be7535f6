//! Rows of calls that append, display or stream, and of calls with pieces. Slashes separate pieces.

/// Texts that are appended.
pub(super) const APPENDED: &str = "\
base64|most|check|=||0||||Hello world|SGVsbG8gd29ybGQ=
base64|most|check|=||0|||||";

/// Texts that an encoder appends. At the end it encodes its held bytes.
pub(super) const FINALIZED: &str = "\
base64|most|check|=||0||||he//llo|aGVsbG8=
base64|most|check|=||0||||hello/world|aGVsbG93b3JsZA==
base64|most|check|=||0|||||
base64|most|check|=||76|←↵|||56×\0¦/\0|19×AAAA¦←↵";

/// Texts that an encoder appends. At the end it drops its held bytes.
pub(super) const ABANDONED: &str = "\
base64|most|check|=||0||||he//llo|aGVs
base64|most|check|=||0||||h/e|
base64|most|check|=||76|←↵|||56×\0|
base64|most|check|=||76|←↵|||56×\0¦/\0|19×AAAA¦←↵";

/// Pieces; the bytes that each of them and the end appends; and the fault.
pub(super) const PIECES: &str = "\
base64|most|check|||0||||AA/AA|/\0\0\0//
base64|most|check|||0||||A/A|//\0/
base64|most|check|||0||||!/AAAA|///invalid length at 4
base64|most|check|=||76|←↵|||SGVs←/↵bG/8=|Hel//lo//
octal|most|check|| |0||||00/1/00|////invalid length at 3
base64|most|single check|=||0||||AA=/=/AA==|/\0///invalid padding length at 4
base64|most|check|=||76|←↵|||AA==←↵/AA==AAA=←↵AAA!/AA|\0/\0\0\0///invalid symbol at 19
base64|most|single check|=|-|0||||AAAAAA=-=/-/A|\0\0\0\0////invalid padding length at 10
base64|most|single check|=|-|0||||AAAAAA==-BB-BB!/AAAA|\0\0\0\0///invalid padding length at 9
base64|most|check||-|0||||AAAA-AA-/AA-A/A!AA|\0\0\0/\0\0\0///invalid symbol at 13";

/// The data of a text, and after a slash, its fault.
pub(super) const DECODED_STREAMS: &str = "\
base64|most|check|=||76|←↵|||SG¦100000×↵¦Vs|Hel/
base64|most|check|=||76|←↵|||SG¦100000×↵¦V!|/invalid symbol at 100003
base64|most|check|=||76|←↵|||SG¦100000×↵¦V|/invalid length at 0
base64|most|check|=||0||||AA==A===|\0/invalid padding length at 5
base64|most|single check|=||0||||AA==AA==|\0/invalid padding length at 4
hex|most|check|||0||||6869↵|hi/invalid length at 4
hex|most|check|||0||||4G4|/invalid length at 2
base64|most|check|||0||||AAAAA|\0\0\0/invalid length at 4
BASE64_MIME|1000×AAAAAAAAAAAAAAAAAAAAAAAAAAAAAAAAAAAAAAAAAAAAAAAAAAAAAAAAAAAAAAAAAAAAAAAAAAAA←↵|\
    57000×\0¦/
BASE64_MIME|999×AAAAAAAAAAAAAAAAAAAAAAAAAAAAAAAAAAAAAAAAAAAAAAAAAAAAAAAAAAAAAAAAAAAAAAAAAAAA←↵¦\
    AAAAAAAAAAAAAAAAAAAAAAAAAAAAAAAAAAAAAAAAAAAAAAAAAAAAAAAAAAAAAAAAAAAAAAAAAAA!←↵|\
    56997×\0¦/invalid symbol at 77997";

/// The text of data.
pub(super) const ENCODED_STREAMS: &str = "\
BASE64_MIME|57000×\0|\
    1000×AAAAAAAAAAAAAAAAAAAAAAAAAAAAAAAAAAAAAAAAAAAAAAAAAAAAAAAAAAAAAAAAAAAAAAAAAAAA←↵";

/// The numbers of reads and writes of a stream of the given length, and the most that a read asks
/// for.
///
/// If the last piece is not full, one more read finds the end.
pub(super) const ENCODE_CALLS: &str = "\
hex|most|check|||0||||0|1 reads of 8192, 0 writes
hex|most|check|||0||||24575|4 reads of 8192, 1 writes
hex|most|check|||0||||24576|4 reads of 8192, 1 writes
hex|most|check|||0||||98304|13 reads of 8192, 4 writes
base64|most|check|=||76|←↵|||35910|6 reads of 8192, 1 writes
base64|most|check|=||76|←↵|||35911|7 reads of 8192, 2 writes
binary|most|check|||8|dashes|||186|2 reads of 186, 1 writes
binary|most|check|||8|dashes|||187|3 reads of 186, 2 writes";

/// The number of reads for a text, and the most that a read asks for.
pub(super) const DECODE_READS: &str = "\
BASE64_MIME|1000×AAAAAAAAAAAAAAAAAAAAAAAAAAAAAAAAAAAAAAAAAAAAAAAAAAAAAAAAAAAAAAAAAAAAAAAAAAAA←↵|\
    11 reads of 8192";

/// The length of data, and the lengths of the parts that are written, with a buffer.
pub(super) const BUFFERED: &str = "\
hex|most|check|||254|feeds|||128|[509, 257]
base64|most|check|=||76|←↵|||400|[468, 84]
base64|most|check|=||76|←↵|||0|[]
base64|most|check|=||76|←↵|||1500|[468, 468, 468, 468, 182]
base64|most|check|=||0||||1500|[508, 508, 508, 476]";

/// The length of data, and the lengths of the parts that are written, without a buffer.
pub(super) const UNBUFFERED: &str = "\
base64|most|check|=||0||||1000|[1024, 312]
base64|most|check|=||0||||768|[1024]
base64|most|check|=||0||||0|[]
base64|most|check|=||76|←↵|||3000|[1014, 1014, 1014, 1014, 50]
base32|most|check|=||0||||3000|[1024, 1024, 1024, 1024, 704]";

/// The length of data, and the lengths of the parts that are displayed.
pub(super) const DISPLAYED: &str = "\
base64|most|check|=||0||||2500|[1024, 1024, 1024, 264]
hex|most|check|||0||||2000|[1024, 1024, 1024, 928]";

/// A text after other text, and in a wider field.
pub(super) const DISPLAYED_PADDED: &str = "\
BASE64|Hello world|Payload: SGVsbG8gd29ybGQ= SGVsbG8gd29ybGQ=";
