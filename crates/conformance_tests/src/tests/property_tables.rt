//! Rows of the properties of encodings, and of their layouts.

/// The meaning of a byte, its value, and `true` if it is padding, ignored or invalid.
pub(super) const MEANINGS: &str = "\
base64|most|check|=||76|←↵|||B|Symbol { value: 1 } Some(1) false false false
base64|most|check|=||76|←↵|||=|Padding None true false false
base64|most|check|=||76|←↵|||↵|Ignored None false true false
base64|most|check|=||76|←↵|||!|Invalid None false false true
base64|most|check|=||76|←↵|||\u{c8}|Invalid None false false true
01|most|check|||0||ab|0a|b|Symbol { value: 0 } Some(0) false false false
BASE64_MIME|B|Symbol { value: 1 } Some(1) false false false
BASE64_MIME|=|Padding None true false false
BASE64_MIME|↵|Ignored None false true false
BASE64_MIME|!|Invalid None false false true
BASE64_MIME|\u{c8}|Invalid None false false true";

/// The bits of a symbol, the symbols of a group, the bytes of a block and of a piece with a text of
/// up to 1,024 bytes, `true` if a byte is ignored, `true` if texts may be concatenated, the bytes
/// of a group, `true` if each text consists of whole groups, and `true` if texts are padded.
pub(super) const SIZES: &str = "\
binary|most|check|||0||||1, 8, 1, 128, false, true, 1, true, false
quaternary|most|check|||0||||2, 4, 1, 256, false, true, 1, true, false
octal|most|check|||0||||3, 8, 3, 384, false, true, 3, false, false
hex|most|check|||0||||4, 2, 1, 512, false, true, 1, true, false
base32|most|check|||0||||5, 8, 5, 640, false, true, 5, false, false
base64|most|check|||0||||6, 4, 3, 768, false, true, 3, false, false
base64|most|check|=||76|←↵|||6, 4, 57, 741, true, true, 3, true, true
base64|most|check||~|0||||6, 4, 3, 768, true, true, 3, false, false
base64|most|single check|=||0||||6, 4, 3, 768, false, false, 3, true, true
BASE64||6, 4, 3, 768, false, true, 3, true, true
binary|most|check|||248|dashes|||1, 8, 31, 62, true, true, 1, true, false
quaternary|most|check|||252|dashes|||2, 4, 63, 126, true, true, 1, true, false
octal|most|check|||248|dashes|||3, 8, 93, 186, true, true, 3, false, false
hex|most|check|||254|dashes|||4, 2, 127, 254, true, true, 1, true, false
base32|most|check|||248|dashes|||5, 8, 155, 310, true, true, 5, false, false
base64|most|check|||252|dashes|||6, 4, 189, 378, true, true, 3, false, false";

/// `true` if different texts never mean the same data.
pub(super) const CANONICAL: &str = "\
HEXLOWER||true
HEXUPPER||true
BASE32_NOPAD||true
BASE32HEX_NOPAD||true
BASE64_NOPAD||true
BASE64URL_NOPAD||true
HEXLOWER_PERMISSIVE||false
HEXUPPER_PERMISSIVE||false
BASE32||false
BASE32_NOPAD_NOCASE||false
BASE32_NOPAD_VISUAL||false
BASE32HEX||false
BASE32_DNSSEC||false
BASE32_DNSCURVE||false
BASE64||false
BASE64_MIME||false
BASE64_MIME_PERMISSIVE||false
BASE64URL||false
base64|most|single check|=||0||||true
base64|most|check|=||0||||false
base64|most|single|=||0||||false
base64|most|single check|=|↵|0||||false
base64|most|single check|=||4|↵|||false
base64|most|single check|=||0||~|=|false
base64|most|single check|=||0||~|A|false
base64|least|check|||0||||true
base64|least||||0||||false
hex|most||||0||||true
hex|most|check|||0||A|a|false";

/// `true` if texts are in the order of their data.
pub(super) const ORDERED: &str = "\
HEXLOWER||true
HEXLOWER_PERMISSIVE||true
HEXUPPER||true
HEXUPPER_PERMISSIVE||true
BASE32HEX_NOPAD||true
BASE32_DNSSEC||true
BASE32||false
BASE32_NOPAD||false
BASE32_NOPAD_NOCASE||false
BASE32_NOPAD_VISUAL||false
BASE32HEX||false
BASE32_DNSCURVE||false
BASE64||false
BASE64_NOPAD||false
BASE64URL||false
BASE64URL_NOPAD||false
octal|most|check|!||0||||true
octal|most|check|=||0||||false";

/// The changes to a layout. If it is still a layout, its length, its bytes 512 and 513, and the
/// next three.
pub(super) const LAYOUTS: &str = "\
HEXLOWER||514: [128, 28] []
BASE32||514: [61, 29] []
BASE32_NOPAD||514: [128, 29] []
BASE32_DNSCURVE||514: [128, 21] []
BASE64||514: [61, 30] []
BASE64_NOPAD||514: [128, 30] []
base64|most|single check|||0|||||514: [128, 30] []
BASE64_MIME||517: [61, 30] [76, 13, 10]
BASE64_MIME_PERMISSIVE||517: [61, 14] [76, 13, 10]
base32|most|single check|=||0|||||514: [61, 61] []
base64|most|single check|=||0|||||514: [61, 62] []
base64|most|check||others|0|||||515: [128, 30] [0]
HEXLOWER|513=12|none
HEXLOWER|len=515|none
BASE64|513=14|514: [61, 14] []
BASE64|512=128|none
BASE64_NOPAD|513=62|none
BASE64_MIME|514=75|none
BASE64_MIME|514=0|none
BASE64_MIME|len=515|none
BASE64_MIME|len=515 514=0|515: [61, 30] [0]
base64|most|check|||252|feeds||||770: [128, 30] [252, 10, 10]";

/// An encoding, the changes to its layout, another encoding, and `true` if that one has the layout.
///
/// Concatenation distinguishes two encodings if there is padding.
pub(super) const COMPARISONS: &str = "\
binary|most|check|||0|||||&binary|most||||0||0|0|true
binary|most|check|||0|||||&10|most|check|||0||||false
binary|most|check|||0|||||&binary|least|check|||0||||false
binary|most|check|||0|||||&binary|most|check||~|0||||false
binary|most|check|||0|||||&binary|most|check|||8|~|||false
binary|most|check|||0|||||&binary|most|check|||0||a|0|false
binary|most|check||~!|8|~|||&binary|most|check||~!|8|!|||false
base64|most|check|||0|||||&base64|most|single check|||0||||true
base64|most|check|=||0|||||&base64|most|single check|=||0||||false
HEXLOWER||&hex|most|check|||0||||true
BASE32||&base32|most|check|=||0||||true
BASE64_MIME||&base64|most|check|=||76|←↵|||true
HEXLOWER||&HEXLOWER||true
BASE64|513=62|&base64|most|single check|=||0||||true";
