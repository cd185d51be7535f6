//! Rows of the callers. A space separates two texts.

/// A caller, named after its result.
#[derive(Clone, Copy)]
pub(super) enum Caller {
    AnyToken,
    Back,
    Body,
    Early,
    IsBefore,
    IsKey,
    IsOneText,
    IsRefusedAlike,
    IsSameName,
    IsSortedBefore,
    IsStored,
    IsBuiltAgain,
    LowerCase,
    NoSymbol,
    OddLength,
    Pieces,
    Rewrapped,
    TextInTwo,
    Token,
    TokenOf,
    Two,
    UrlText,
}

/// The rows of each caller.
///
/// Compared are the names of RFC 5155, appendix A, for `example` and for `a.example`. The byte `B`
/// comes before `a`, and the value of `a` before the value of `B`. 9 and A have the values 9 and
/// 10.
pub(super) const TABLES: [(Caller, &str); 22] = [
    (
        Caller::AnyToken,
        "\
BASE64URL_NOPAD|-_8|\u{fb}\u{ff}
BASE64URL_NOPAD||
BASE64URL_NOPAD|-_9|none
BASE64|AA==|none",
    ),
    (Caller::Back, "BASE64_MIME|Hello|Hello"),
    (
        Caller::Body,
        "\
BASE64_MIME|SGVs↵bG8=↵|Hello
BASE64_MIME|SGVs↵bG!=↵|line 1, column 2: Symbol
BASE64_MIME|SGVs←↵↵bG8|line 2, column 0: Length",
    ),
    (
        Caller::Early,
        "\
BASE64|SGVs|Hel
BASE64|SGVsbG8!|invalid symbol at 7",
    ),
    (
        Caller::IsBefore,
        "\
BASE32HEX_NOPAD|94 A0|true
BASE32HEX_NOPAD|A0 94|false
BASE32HEX_NOPAD|94 9400|true
BASE32HEX_NOPAD|94 94|false",
    ),
    (
        Caller::IsKey,
        "\
BASE64URL_NOPAD|MDEyMzQ1Njc4OWFiY2Rl_w|true
BASE64URL_NOPAD|MDEyMzQ1Njc4OWFiY2Rl|false",
    ),
    (
        Caller::IsOneText,
        "\
HEXLOWER|4a 4a|true
HEXLOWER|4a 4b|false
HEXLOWER_PERMISSIVE|4a 4a|false
HEXLOWER|4a 4A|invalid symbol at 1",
    ),
    (
        Caller::IsRefusedAlike,
        "\
HEXLOWER|4G4|true
HEXLOWER|4G|false",
    ),
    (
        Caller::IsSameName,
        "\
BASE32_DNSSEC|0p9mhaveqvm6t7vbl5lop2u3t2rp3tom 0P9MHAVEQVM6T7VBL5LOP2U3T2RP3TOM|true
BASE32_DNSSEC|0p9mhaveqvm6t7vbl5lop2u3t2rp3tom 35mthgpgcu1qg68fab165klnsnk3dpvl|false
BASE32_DNSSEC|0p9mhaveqvm6t7vbl5lop2u3t2rp3tom 0p9mhaveqvm6t7vbl5lop2u3t2rp3to|false",
    ),
    (
        Caller::IsSortedBefore,
        "\
BASE32_DNSSEC|a0 B0|true
BASE32_DNSSEC|B0 a0|false
BASE32_DNSSEC|A0 a0|false",
    ),
    (
        Caller::IsStored,
        "\
BASE64_MIME|BASE64|true
HEXLOWER|HEXLOWER_PERMISSIVE|true",
    ),
    (
        Caller::IsBuiltAgain,
        "\
BASE64|BASE64|true
BASE64|BASE64_NOPAD|false",
    ),
    (Caller::LowerCase, "BASE32_DNSSEC|0P9MHAVEqz|0p9mhaveqz"),
    (Caller::NoSymbol, "HEXLOWER||invalid symbol at 1"),
    (Caller::OddLength, "HEXLOWER||invalid length at 2"),
    (
        Caller::Pieces,
        "\
BASE64_MIME|8=|>Hello
BASE64_MIME|8!|>Hel, invalid symbol at 9",
    ),
    (
        Caller::Rewrapped,
        "\
BASE64_MIME|SGVsbG8sIHdv←↵cmxkIQ==←↵|SGVsb←↵G8sIH←↵dvcmx←↵kIQ==←↵
BASE64_MIME|SGVs↵b|SGVsb←↵
BASE64_MIME|↵|
BASE64|SGVs|none",
    ),
    (Caller::TextInTwo, "BASE64|he llo|Result: aGVsbG8="),
    (
        Caller::Token,
        "\
BASE64URL_NOPAD|MDEyMzQ1Njc4OWFiY2Rl_w|0123456789abcde\u{ff}
BASE64URL_NOPAD|MDEyMzQ1Njc4OWFiY2Rl_x|none",
    ),
    (
        Caller::TokenOf,
        "BASE64URL_NOPAD|0123456789abcde\u{ff}|MDEyMzQ1Njc4OWFiY2Rl_w",
    ),
    (
        Caller::Two,
        "\
BASE64_MIME|SGVs←↵b G8=←↵|Hello
BASE64_MIME|SGVs←↵b G!=|invalid symbol at 8",
    ),
    (Caller::UrlText, "BASE64|A+/A/w==|A-_A_w=="),
];
