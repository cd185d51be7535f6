//! The specifications of the sweeps.

/// Each width in both orders, without padding.
pub(super) const BASES: &str = "\
binary|most|check|||0||||
binary|least|check|||0||||
quaternary|most|check|||0||||
quaternary|least|check|||0||||
octal|most|check|||0||||
octal|least|check|||0||||
octal|most||||0||||
hex|most|check|||0||||
hex|least|check|||0||||
base32|most|check|||0||||
base32|least|check|||0||||
base64|most|check|||0||||
base64|least|check|||0||||
base64|least||||0||||";

/// Widths with trailing bits that are not checked.
pub(super) const UNCHECKED: &str = "\
octal|least||||0||||
base32|most||||0||||
base32|least||||0||||
base64|most||||0||||";

/// Each width that allows padding, with all rules.
pub(super) const PADDED: &str = "\
octal|most|check|=||0||||
octal|most||=||0||||
octal|most|single check|=||0||||
octal|most|single|=||0||||
octal|least|check|=||0||||
octal|least||=||0||||
octal|least|single check|=||0||||
octal|least|single|=||0||||
base32|most|check|=||0||||
base32|most||=||0||||
base32|most|single check|=||0||||
base32|most|single|=||0||||
base32|least|check|=||0||||
base32|least||=||0||||
base32|least|single check|=||0||||
base32|least|single|=||0||||
base64|most|check|=||0||||
base64|most||=||0||||
base64|most|single check|=||0||||
base64|most|single|=||0||||
base64|least|check|=||0||||
base64|least||=||0||||
base64|least|single check|=||0||||
base64|least|single|=||0||||";

/// Each width in both orders, padded if a group may be incomplete. Then an ignored byte, and lines
/// from one group to the longest, with separators of 1, 2 and 255 bytes.
pub(super) const DATA_PIECES: &str = "\
binary|most|check|||0||||
binary|least|check|||0||||
quaternary|most|check|||0||||
quaternary|least|check|||0||||
octal|most|check|||0||||
octal|least|check|||0||||
octal|most|check|=||0||||
octal|least|check|=||0||||
hex|most|check|||0||||
hex|least|check|||0||||
base32|most|check|||0||||
base32|least|check|||0||||
base32|most|check|=||0||||
base32|least|check|=||0||||
base64|most|check|||0||||
base64|least|check|||0||||
base64|most|check|=||0||||
base64|least|check|=||0||||
base64|most|check|=|~|0||||
binary|most|check|||8|-|||
binary|least|check|||248|dashes|||
quaternary|most|check|||4|←↵|||
quaternary|least|check|||252|-|||
octal|most|check|||8|dashes|||
octal|least|check|=||16|←↵|||
hex|least|check|||2|-|||
hex|most|check|||254|dashes|||
base32|most|check|=||8|←↵|||
base32|least|check|||248|dashes|||
base64|most|check|=||76|←↵|||
base64|least|check|||4|dashes|||
base64|most|check|||252|-|||
base64|least|check|=|~|8|←↵|||";

/// Encodings with padding, with lines, and without both.
pub(super) const EACH_LENGTH: &str = "\
base64|most|check|=||0||||
base64|most|check|=||76|←↵|||
hex|most|check|||0||||";

/// Each width in both orders, among them translations, padding and ignored bytes.
pub(super) const GROUPS: &str = "\
binary|most|check|||0||||
binary|least|check|||0||||
quaternary|most|check|||0||||
quaternary|least|check|||0||||
octal|most|check|=|↵|0||||
octal|least|check|||0||||
hex|most|check||↵|0||||
hex|least|check|||0||||
0123456789ABCDEF|most|check|||0||abcdef|ABCDEF|
base32|most|check|||0||||
base32|least|check|=|↵|0||||
base32hex|most|check|||0||abcdefghijklmnopqrstuv|ABCDEFGHIJKLMNOPQRSTUV|
dnscurve|least|check|||0||||
base64|most|check|=|↵|0||||
base64|least|check|||0||||";

/// The longest lines of whole groups.
pub(super) const IN_LINES: &str = "\
binary|most|check|||248|↵|||
binary|least|check|||248|↵|||
quaternary|most|check|||252|↵|||
quaternary|least|check|||252|↵|||
octal|most|check|||248|↵|||
octal|most|check|=||248|↵|||
octal|least|check|||248|↵|||
octal|least|check|=||248|↵|||
hex|most|check|||252|↵|||
hex|least|check|||252|↵|||
base32|most|check|||248|↵|||
base32|most|check|=||248|↵|||
base32|least|check|||248|↵|||
base32|least|check|=||248|↵|||
base64|most|check|||252|↵|||
base64|most|check|=||252|↵|||
base64|least|check|||252|↵|||
base64|least|check|=||252|↵|||";

/// Each width in both orders. The sweep sets lines of each length.
pub(super) const COLUMNS: &str = "\
binary|most|check|||0||||
binary|least|check|||0||||
quaternary|most|check|||0||||
quaternary|least|check|||0||||
octal|most|check|=||0||||
octal|least|check|||0||||
hex|most|check|||0||||
hex|least|check|||0||||
base32|most|check|=||0||||
base32|least|check|||0||||
base64|most|check|=||0||||
base64|least|check|||0||||";

/// Widths from one bit to six, with padding and lines. The last has 263 characters for a byte.
pub(super) const STREAMS: &str = "\
hex|most|check|||0||||
octal|least|check|=||0||||
base32|most|check|=||0||||
base64|most|check|=||76|←↵|||
binary|most|check|||0||||
binary|most|check|||8|dashes|||";

/// Each width, then padded, with ignored bytes, unpadded with ignored bytes, and not concatenated.
pub(super) const LONG: &str = "\
binary|most|check|||0||||
quaternary|least|check|||0||||
octal|most|check|||0||||
hex|most|check|||0||||
base32|least|check|||0||||
base64|most|check|||0||||
octal|least|check|=||0||||
base32|most||=||0||||
base64|most|check|=||0||||
octal|most|check|=||8|-|||
base32|most|check|=||40|-|||
base64|most|check|=||76|←↵|||
binary|least|check|||8|-|||
quaternary|most|check|||76|-|||
hex|most|check|||64|-|||
octal|most|check|||64|-|||
base32|most|check|||40|-|||
base64|least|check|||76|-|||
base64|most|single check|=||0||||
base64|most|single check|=||76|-|||
octal|most|single|=|-|0||||";

/// Each width, padded if a group may be incomplete. Then unpadded, and not concatenated.
pub(super) const MIXED: &str = "\
binary|least|check|||0||||
quaternary|most|check|||0||||
octal|least|check|=||0||||
hex|most|check|||0||||
base32|most||=||0||||
base64|most|check|=||0||||
octal|most|check|||0||||
base32|least|check|||0||||
base64|most||||0||||
base64|least|single check|=||0||||";

/// Separators of 1, 2 and 255 bytes.
pub(super) const MANY_LINES: &str = "\
base64|most|check|=||76|←↵|||
hex|least|check|||64|-|||
base32|most||=||16|dashes|||";
