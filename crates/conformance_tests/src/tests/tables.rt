//! Rows of calls with whole data and whole texts: the fields of an encoding, or its name; the
//! arguments; and the expected results.

/// Data and its text.
pub(super) const TEXTS: &str = "\
hex|most|check|||0|||||
hex|most|check|||0||||Hello|48656c6c6f
hex|most|check|||0||||Bit|426974
hex|most|check|||0||||\u{de}\u{ad}\u{be}\u{ef}|deadbeef
octal|most|check|||0||||Bit|20464564
octal|most|check|||0||||B|204
base64|most|check|||0||||B|Qg
base64|most|check|=||0||||B|Qg==
base64|most|check|=||0||||it|aXQ=
BASE64|B|Qg==
BASE64|it|aXQ=
binary|most|check|||0||||Bit|010000100110100101110100
binary|most|check|||0||||S|01010011
binary|least|check|||0||||S|11001010
dnscurve|least|check|||0||BCDFGHJKLMNPQRSTUVWXYZ|bcdfghjklmnpqrstuvwxyz|d\u{88}|4321
base32hex|most|check|||0||||\0|00
base32hex|most|check|||0||||\0\0|0000
base32hex|most|check|||0||||\u{1}|04
base64|most|check|=||8| |||Hey you|SGV5IHlv dQ==\u{20}
base64|most|check|||8| |||Hey you|SGV5IHlv dQ\u{20}
binary|most|check|||8|-|||SS|01010011-01010011-
base64|most|check|=||76|←↵||||
base64|most|check|=||76|←↵|||\
    \0\0\0\0\0\0\0\0\0\0\0\0\0\0\0\0\0\0\0\0\0\0\0\0\0\0\0\0\0\0\0\0\
    \0\0\0\0\0\0\0\0\0\0\0\0\0\0\0\0\0\0\0\0\0\0\0\0\0|\
    AAAAAAAAAAAAAAAAAAAAAAAAAAAAAAAAAAAAAAAAAAAAAAAAAAAAAAAAAAAAAAAAAAAAAAAAAAAA←↵
octal|most|check|!||0||||\0|000!!!!!
octal|most|check|!||0||||\0\0|000000!!
octal|most|check|=||0||||\0|000=====
octal|most|check|=||0||||\0\0|000000==
HEXLOWER|Bit|426974";

/// The length of data, and the length of its text.
pub(super) const LENGTHS: &str = "\
base64|most|check|=||0||||0|0
base64|most|check|=||0||||1|4
base64|most|check|=||0||||3|4
base64|most|check|=||0||||4|8
base32|most|check|=||0||||1|8
base64|most|check|=||76|←↵|||0|0
base64|most|check|=||76|←↵|||58|84
binary|most|check|||8|dashes|||1|263
binary|most|check|||8|dashes|||36028797018963967|9475573615987523321
binary|most|check|||248|dashes|||31|503
quaternary|most|check|||252|dashes|||63|507
octal|most|check|||248|dashes|||93|503
hex|most|check|||254|dashes|||127|509
base32|most|check|||248|dashes|||155|503
base64|most|check|||252|dashes|||189|507";

/// The vectors of RFC 4648, section 10, and a few more.
pub(super) const VECTORS: &str = "\
base64|most|check|=||0|||||
base64|most|check|=||0||||f|Zg==
base64|most|check|=||0||||fo|Zm8=
base64|most|check|=||0||||foo|Zm9v
base64|most|check|=||0||||foob|Zm9vYg==
base64|most|check|=||0||||fooba|Zm9vYmE=
base64|most|check|=||0||||foobar|Zm9vYmFy
base32|most|check|=||0|||||
base32|most|check|=||0||||f|MY======
base32|most|check|=||0||||fo|MZXQ====
base32|most|check|=||0||||foo|MZXW6===
base32|most|check|=||0||||foob|MZXW6YQ=
base32|most|check|=||0||||fooba|MZXW6YTB
base32|most|check|=||0||||foobar|MZXW6YTBOI======
base32hex|most|check|=||0|||||
base32hex|most|check|=||0||||f|CO======
base32hex|most|check|=||0||||fo|CPNG====
base32hex|most|check|=||0||||foo|CPNMU===
base32hex|most|check|=||0||||foob|CPNMUOG=
base32hex|most|check|=||0||||fooba|CPNMUOJ1
base32hex|most|check|=||0||||foobar|CPNMUOJ1E8======
0123456789ABCDEF|most|check|||0|||||
0123456789ABCDEF|most|check|||0||||f|66
0123456789ABCDEF|most|check|||0||||fo|666F
0123456789ABCDEF|most|check|||0||||foo|666F6F
0123456789ABCDEF|most|check|||0||||foob|666F6F62
0123456789ABCDEF|most|check|||0||||fooba|666F6F6261
0123456789ABCDEF|most|check|||0||||foobar|666F6F626172
base64|most|check|=||0||||Hello world|SGVsbG8gd29ybGQ=
base32|most|check|=||0||||Hello world|JBSWY3DPEB3W64TMMQ======
octal|most|check|=||0||||B|204=====
octal|most|check|=||0||||it|322720==";

/// Vectors of the predefined encodings.
pub(super) const NAMED_VECTORS: &str = "\
HEXLOWER||
HEXLOWER_PERMISSIVE||
HEXUPPER||
HEXUPPER_PERMISSIVE||
BASE32||
BASE32_NOPAD||
BASE32_NOPAD_NOCASE||
BASE32_NOPAD_VISUAL||
BASE32HEX||
BASE32HEX_NOPAD||
BASE32_DNSSEC||
BASE32_DNSCURVE||
BASE64||
BASE64_NOPAD||
BASE64_MIME||
BASE64_MIME_PERMISSIVE||
BASE64URL||
BASE64URL_NOPAD||
HEXUPPER|foobar|666F6F626172
BASE32|f|MY======
BASE32|fo|MZXQ====
BASE32|foo|MZXW6===
BASE32|foob|MZXW6YQ=
BASE32|fooba|MZXW6YTB
BASE32|foobar|MZXW6YTBOI======
BASE32HEX|f|CO======
BASE32HEX|fo|CPNG====
BASE32HEX|foo|CPNMU===
BASE32HEX|foob|CPNMUOG=
BASE32HEX|fooba|CPNMUOJ1
BASE32HEX|foobar|CPNMUOJ1E8======
BASE64|f|Zg==
BASE64|fo|Zm8=
BASE64|foo|Zm9v
BASE64|foob|Zm9vYg==
BASE64|fooba|Zm9vYmE=
BASE64|foobar|Zm9vYmFy
HEXLOWER|foobar|666f6f626172
HEXLOWER_PERMISSIVE|foobar|666f6f626172
HEXUPPER_PERMISSIVE|foobar|666F6F626172
BASE32_NOPAD|foobar|MZXW6YTBOI
BASE32_NOPAD_NOCASE|foobar|MZXW6YTBOI
BASE32_NOPAD_VISUAL|foobar|MZXW6YTBOI
BASE32HEX_NOPAD|foobar|CPNMUOJ1E8
BASE32_DNSSEC|foobar|cpnmuoj1e8
BASE32_DNSCURVE|d\u{88}|4321
BASE64_NOPAD|f|Zg
BASE64_MIME|f|Zg==←↵
BASE64_MIME_PERMISSIVE|f|Zg==←↵
BASE64|\u{fb}\u{f0}|+/A=
BASE64URL|\u{fb}\u{f0}|-_A=
BASE64URL_NOPAD|\u{fb}\u{f0}|-_A";

/// Texts, and their data or their fault.
pub(super) const BYTES: &str = "\
hex|most|check|||0|||||
hex|most|check|||0||||48656c6c6f|Hello
hex|most|check|||0||||deadbeef|\u{de}\u{ad}\u{be}\u{ef}
hex|most|check|||0||||4G|invalid symbol at 1
hex|most|check|||0||||4G4|invalid length at 2
hex|most|check|||0||||DE|invalid symbol at 0
hex|most|check|||0||||6869↵|invalid length at 4
hex|most|check|||0||||00\u{e9}|invalid length at 2
octal|most|check|||0||||004|\u{2}
octal|most|check|||0||||001|non-zero trailing bits at 2
octal|most||||0||||007|\u{3}
octal|least|check|||0||||001|@
octal|least|check|||0||||004|non-zero trailing bits at 2
dnscurve|least|check|||0||BCDFGHJKLMNPQRSTUVWXYZ|bcdfghjklmnpqrstuvwxyz|4321|d\u{88}
dnscurve|least|check|||0||||4323|non-zero trailing bits at 3
base32|most|check|||0||||A|invalid length at 0
base32|most|check|||0||||AB|non-zero trailing bits at 1
base32|most|check|||0||01l8|OIIB|IA|@
base32|most|check|||0||01l8|OIIB|1A|@
base32|most|check|||0||01l8|OIIB|lA|@
0123456789ABCDEF|most|check|||0||abcdef|ABCDEF|DeadBeef|\u{de}\u{ad}\u{be}\u{ef}
binary|most|check|||0||||01010011|S
base64|most|check|=||0||||!===|invalid padding length at 1
base64|most|check|=||0||||AAB=|non-zero trailing bits at 2
base64|most|check|=||0||||AAB|invalid length at 0
base64|most|check|=||0||||AAA|invalid length at 0
base64|most|check|=||0||||A←A↵B=|invalid length at 4
base64|most|check|=||0||||AA↵B=|invalid length at 4
base64|most|check|=||0||||-_←↵|invalid symbol at 0
base64|most|check|=||0||||====|invalid padding length at 0
base64|most|check|=||0||||A===|invalid padding length at 1
base64|most|check|=||0||||AA=A|invalid symbol at 2
base64|most|check|=||0||||=AAA|invalid symbol at 0
base64|most|check|=||0||||AA==AA==|\0\0
base64|most|check|=||0||||Zg==Zm8=Zm9v|ffofoo
base64|most|check|=||0||||Zg==Zm8=Zm9v=|invalid length at 12
base64|most|check|=||0||||SGVsbA==byB3b3JsZA==|Hello world
base64|most|check|=||0||||Qg==aXQ=|Bit
base32|most|check|=||0||||A=======|invalid padding length at 1
base32|most|check|=||0||||AAA=====|invalid padding length at 3
base32|most|check|=||0||||AAAAAA==|invalid padding length at 6
base32|most|check|=||0||||AB======|non-zero trailing bits at 1
octal|most|check|=||0||||204=====322720==|Bit
octal|most|check|=||0||||00======|invalid padding length at 2
octal|most|check|=||0||||001=====|non-zero trailing bits at 2
octal|most|check|=||0||~|=|204=~=~=|B
base64|most|single check|=||0||||AA==A|invalid length at 4
base64|most|single check|=||0||||AAAAAA==|\0\0\0\0
base64|most|single check|=|↵|0||||AA==↵|\0
base64|most|check|=||76|←↵|||←↵←↵|
base64|most|check|=||76|←↵|||←↵bG8=←↵|lo
base64|most|check||↵|0||||AA↵A|\0\0
base64|most|check||others|0||||S.G-V:s|Hel
binary|most|check||-|0||_|-|0-1_010011|S
hex|most|check|| →|0||||42 69 74|Bit
hex|most|check|||0||ABCDEFOIl|abcdef011|BOIl|\u{b0}\u{11}
HEXLOWER|DeadBeef|invalid symbol at 0
HEXLOWER_PERMISSIVE|DeadBeef|\u{de}\u{ad}\u{be}\u{ef}
HEXUPPER|DeadBeef|invalid symbol at 1
HEXUPPER_PERMISSIVE|DeadBeef|\u{de}\u{ad}\u{be}\u{ef}
BASE32_NOPAD|mZXW6|invalid symbol at 0
BASE32_NOPAD_NOCASE|mZXW6|foo
BASE32_NOPAD_VISUAL|IA|@
BASE32_NOPAD_VISUAL|1A|@
BASE32_NOPAD_VISUAL|lA|@
BASE32_DNSSEC|CPNMUOJ1E8|foobar
BASE32_DNSCURVE|4323|non-zero trailing bits at 3
BASE64_NOPAD|AAAA|\0\0\0
BASE64_MIME|AAB=|non-zero trailing bits at 2
BASE64_MIME_PERMISSIVE|AAB=|\0\0
base64|most|single check|=||0||~|=|AA=~|\0
BASE64_MIME|←↵bG8=←↵|lo
base64|most|check|=||76|←↵|||\
    1000×AAAAAAAAAAAAAAAAAAAAAAAAAAAAAAAAAAAAAAAAAAAAAAAAAAAAAAAAAAAAAAAAAAAAAAAAAAAA←↵|\
    57000×\0
base64|most|check|=||76|←↵|||100000×←↵|";

/// The result of `decode_len` for the length of each text.
pub(super) const DECODED_LENGTHS: &str = "\
hex|most|check|||0||||..........|5
hex|most|check|||0||||...|invalid length at 2
binary|most|check|||0||||...............|invalid length at 8
octal|most|check|||0||||.....|invalid length at 3
base64|most|check|||0||||......|4
base64|most|check|=||0||||.....|invalid length at 4
octal|most|check|=||0||||.........|invalid length at 8
base64|most|check|=||76|←↵|||.....|3";

/// The lengths that `decode_mut` reads and writes.
///
/// Each half of `AAAA` means a byte, and both joined mean three: without padding, no text may
/// follow another if eight bits are not whole symbols.
pub(super) const BEGINNINGS: &str = "\
hex|most|check|||0||||00000000000000000G00000000000000|16 read, 8 written, invalid symbol at 17
base64|most|check|||0||||AAAAAAAAAAAAAAAAAAAAAAAAAAAAAAAAA!AAAAAA|\
    32 read, 24 written, invalid symbol at 33
base32|most|check|||0||||AAAAAAAAAAAAAAAAAAAAAAAAAAAAAAAAAAAAAAAAAAAAAAAAAAAAAAAAAAAAAAAAAB|\
    64 read, 40 written, non-zero trailing bits at 65
base64|most|check|=||76|←↵|||\
    999×AAAAAAAAAAAAAAAAAAAAAAAAAAAAAAAAAAAAAAAAAAAAAAAAAAAAAAAAAAAAAAAAAAAAAAAAAAAA←↵¦\
    AAAAAAAAAAAAAAAAAAAAAAAAAAAAAAAAAAAAAAAAAAAAAAAAAAAAAAAAAAAAAAAAAAAAAAAAAAA!←↵|\
    77994 read, 56997 written, invalid symbol at 77997
BASE64_NOPAD|AA|1 in all
BASE64_NOPAD|AAAA|3 in all
BASE64_MIME|SGVs←↵bG|4 read, 3 written, invalid length at 6";
