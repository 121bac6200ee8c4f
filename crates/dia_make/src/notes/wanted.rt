//! What could be at the place of a fault, in words.

use dia_text::Wanted;

/// The words for what could be there.
pub fn words_of(wanted: Wanted) -> &'static str {
    match wanted {
        Wanted::HeaderLine
        | Wanted::CommandName
        | Wanted::CommandCode
        | Wanted::Flags
        | Wanted::CommandFlags
        | Wanted::App
        | Wanted::Hop
        | Wanted::End
        | Wanted::Number => header_words(wanted),
        Wanted::Unsigned32
        | Wanted::Signed32
        | Wanted::Unsigned64
        | Wanted::Signed64
        | Wanted::Group
        | Wanted::Address
        | Wanted::Text
        | Wanted::TextOrBytes
        | Wanted::Bytes
        | Wanted::BytesOfUnknown => value_words(wanted),
        Wanted::AvpName => "the name or the number of an AVP, or `}`",
        Wanted::AvpFlags => {
            "a dash, two hexadecimal digits, or letters of V, M and P in this order"
        }
        Wanted::AvpLength => "an AVP Length, at most 16777215",
        Wanted::AnyValue => "a value, or `{` for the members of a group",
        Wanted::Family => "the number of an address family, at most 65535",
        Wanted::LineEnd => "the end of the line",
        Wanted::NextMember => "`,` and the next member of the group, or `}`",
        Wanted::OpenGroup => "an AVP or the end of the text, as no group is open",
        Wanted::ClosingBrace => "} for a group that is open",
        Wanted::ShorterData => "less data: an AVP has at most 16777215 bytes",
        Wanted::ShorterGroup => "a shorter group: an AVP has at most 16777215 bytes",
        Wanted::ShorterMessage => "a shorter message: it has at most 16777215 bytes",
    }
}

fn header_words(wanted: Wanted) -> &'static str {
    match wanted {
        Wanted::CommandName => {
            "`code`, or the name of a command of the dictionary that has a code"
        }
        Wanted::CommandCode => "a Command Code, at most 16777215",
        Wanted::Flags => "`flags`, which are required after `code`",
        Wanted::CommandFlags => {
            "a dash, two hexadecimal digits, or letters of R, P, E and T in this order"
        }
        Wanted::App => "`app`, which is required after `code`",
        Wanted::Hop => "`hop`; before it only flags and app are allowed",
        Wanted::End => "`end`",
        Wanted::Number => "a number, at most 4294967295",
        _ => "the line of a header: `code` and a number, or the name of a command",
    }
}

fn value_words(wanted: Wanted) -> &'static str {
    match wanted {
        Wanted::Unsigned32 => {
            "a number, at most 4294967295; or `x` and pairs of hexadecimal digits"
        }
        Wanted::Signed32 => {
            "a number, from -2147483648 to 2147483647; or `x` and pairs of hexadecimal digits"
        }
        Wanted::Unsigned64 => "a number below 2^64; or `x` and pairs of hexadecimal digits",
        Wanted::Signed64 => {
            "a number of 64 bits with its sign; or `x` and pairs of hexadecimal digits"
        }
        Wanted::Group => "`{`, or `x` and pairs of hexadecimal digits",
        Wanted::Address => {
            "an address such as 10.0.0.1 or 2001:0db8:0000:0000:0000:0000:0000:0001, `family` with its number and `x` and pairs \
             of hexadecimal digits, or these bytes alone"
        }
        Wanted::Text | Wanted::TextOrBytes => {
            "a text in double quotes, or `x` and pairs of hexadecimal digits"
        }
        Wanted::BytesOfUnknown => {
            "a text in double quotes, or `x` and pairs of hexadecimal digits, as the dictionary doesn't know the AVP"
        }
        _ => "`x` and pairs of hexadecimal digits",
    }
}
