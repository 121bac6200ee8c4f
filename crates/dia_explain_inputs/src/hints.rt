//! Hints about what is found in the place of something else: a row for each.
//!
//! `PLACE: SIGN => HINT`: at this place the hint is given where the sign is seen. A row has several places with a space between
//! them, and several signs with ` or `. The first row that fits is used. A line that begins with `#` says what the rows below it
//! are about.
//! | Sign | Is seen where |
//! |---|---|
//! | `WORD` | this word is there, in either letter case, or something of this kind, as `a name` or `the end` |
//! | `anything` | there is a word |
//! | `after WORD` | this word precedes it |
//! | `FRONT..` | the text continues with this |
//! | `..PART..` | the word has this in it |

use crate::kinds::has_part;

static HINTS: &str = "\
    # whole texts\n\
    dictionary message: \u{feff}.. => the text begins with a byte order mark: save it as UTF-8 without one\n\
    dictionary: <!doctype html.. or <!DOCTYPE html.. or <!DOCTYPE HTML.. or <html.. or <HTML.. => this is a web page: save it \
     as text, and take the declarations and definitions from there\n\
    dictionary: {.. or [.. => this looks like JSON, or like a program: `diacmd render @base` prints what a dictionary looks \
     like\n\
    dictionary: <?xml.. or <!.. or <dictionary.. or <base.. or <application.. or <vendor.. or <avp .. or <command .. or \
     <define.. or <pdml.. => this looks like XML: dictionaries/from_wireshark.py makes a dictionary text of wireshark's \
     dictionary.xml\n\
    dictionary: @base.. => @base names the built-in dictionary on the command line, and not in a text\n\
    dictionary: @.. => this looks like a .dia file: dictionaries/from_dia.py makes a dictionary text of it\n\
    dictionary: dictionary 1: .. => this isn't a dictionary, but what render wrote where it refused one: run it again, and \
     read what it says\n\
    dictionary: a table => this looks like a table of pairs: the order of the words is A B TABLE\n\
    dictionary: a message => this looks like a message in hexadecimal: the dictionary comes before the message\n\
    message: a dictionary => this looks like a dictionary: the dictionary comes before the message\n\
    message: @base.. => a message is wanted here, and @base names a dictionary\n\
    message: a table => this looks like a table of pairs, and a message is wanted here\n\
    message: header flags .. => this is what `show` wrote, and it isn't read back: save the digits of the message\n\
    message: <.. or {\".. or [.. => this looks like XML or JSON: docs/CAPTURES.md says how to take the messages out of a \
     capture\n\
    message: base64 => this looks like base64: `base64 -d FILE | xxd -p` writes the digits\n\
    # what occurs in place of a digit of a message\n\
    digit: x.. or X.. or \\.. => write the digits without 0x or \\x\n\
    digit: ;.. or #.. => the text of a message has no comments\n\
    digit: :.. or ,.. or -.. or {.. or [.. or \".. or '.. => write the digits with nothing but white space between them\n\
    digit: o => this is the letter O: write the digit 0\n\
    digit: l.. or I.. => this is a letter: write the digit 1\n\
    digit: not ASCII => this character isn't ASCII: write the digits with nothing but spaces between them\n\
    digit: anything => a message is its bytes as hexadecimal digits, as `xxd -p FILE` prints them\n\
    # words of a table\n\
    pair name sign behind: #.. or //.. => a comment begins with ;\n\
    pair: \u{feff}.. => the text begins with a byte order mark: save it as UTF-8 without one\n\
    pair: propose: or dictionary => this isn't a table, but what propose wrote where it was refused: run it again, and read \
     what it says\n\
    pair: @base => a table is wanted here, and @base names a dictionary\n\
    pair: command or avp => command and avp are written in small letters\n\
    pair: commands or avps => a line has one pair: command A = B, or avp A = B\n\
    pair: %avp or <.. => this looks like a dictionary: the order of the words is A B TABLE\n\
    pair: %.. => write command and avp without %\n\
    pair: ..,.. => write spaces between the words, and no commas: a line is command A = B\n\
    pair: a message => this looks like a message in hexadecimal, and a table is wanted here\n\
    name: ..=.. => write a space on each side of =, as in command A = B\n\
    name: .._.. => a name has letters, digits and dashes: write - for _\n\
    name: ..,.. => a line has one pair\n\
    name: \".. or <.. => write names without quotes and brackets\n\
    name: a number => a pair has the names of the two dictionaries, and no codes\n\
    name: anything or the end => a line is command A = B, or avp A = B\n\
    sign: the end => a line is command A = B, or avp A = B\n\
    sign: anything => the sign between two names is =, with a space on each side\n\
    behind: anything => a line has one pair\n\
    # what goes before the hints on the token of a dictionary\n\
    MustNot: anything or the end => the rule mustnot is one word\n\
    Longer: anything or the end => a declaration begins with %avp and a space, as in %avp Session-Id 263 UTF8String must\n\
    Exchanged: anything => the code comes before the format, as in %avp Session-Id 263 UTF8String must\n\
    Commented: anything or the end => a ; begins a comment, up to the end of its line: a header has commas\n\
    HeadFlags HeadApp HeadError HeadVendor HeadClose: {.. or [.. or <.. => a header ends with >, as < Diameter Header: 272, \
     REQ >\n\
    HeadFlags HeadApp HeadError HeadVendor HeadClose: vendor => a group has the number of its vendor in the header, as < AVP \
     Header: 1400 10415 >\n\
    HeadFlags HeadApp HeadError HeadVendor HeadClose: REQ => REQ follows the Command Code, before PXY and the \
     Application-ID\n\
    HeadFlags HeadApp HeadError HeadVendor HeadClose: ERR => the answers with an error of all commands have one definition: < \
     Diameter Header: code, ERR >\n\
    # characters and runs for comments alone\n\
    Token: \u{a0}.. => this is a no-break space: write a space\n\
    Token: \u{ad}.. => this is a soft hyphen, which isn't always shown: take it out, or write -\n\
    Token: \u{200b}.. or \u{feff}.. => this is a character without width: take it out\n\
    Token: \u{2010}.. or \u{2011}.. or \u{2012}.. or \u{2013}.. or \u{2014}.. or \u{2015}.. or \u{2212}.. => this is a dash \
     that isn't ASCII: write -\n\
    Token: \u{2018}.. or \u{2019}.. or \u{201a}.. or \u{201b}.. or \u{201c}.. or \u{201d}.. or \u{201e}.. or \u{201f}.. or \
     \".. or '.. => write names without quotes\n\
    Token: \u{2026}.. => these dots are one character: write two dots, as 0..3\n\
    Token: not ASCII => this character isn't ASCII, and such characters are for comments alone\n\
    Token: _.. => a name has letters, digits and dashes: write - for _\n\
    Token: \x0c.. => this is a form feed, as at the end of a page of an RFC: take out the page breaks with their headers and \
     footers\n\
    Token: \0.. => this is a NUL character: if the file is UTF-16, save it as UTF-8, else take it out\n\
    Token: `.. => take out the lines with ```, and quotes around names\n\
    Token: &.. => this is text of a web page (&lt; is <): save the page as text, and take its parts from there\n\
    Token: @.. => a line with @ is one of a .dia file: dictionaries/from_dia.py makes a dictionary text of it\n\
    Token: #include.. => a text has no includes: `cat` makes one dictionary of several files\n\
    Token: #.. or //.. or /*.. => a comment begins with ;\n\
    Token: %AVP.. or %Avp.. => a declaration begins with %avp, in small letters\n\
    Token: % => the only word with % is %avp; `cat` makes one dictionary of several files\n\
    # declarations\n\
    Name Code VendorOrFormat Vendor Format MRule: , => the words of a declaration have no commas between them\n\
    Name: a number => a declaration is %avp NAME CODE [vendor N] FORMAT RULE: the name comes before the code\n\
    Name: AVP => AVP in a rule is the wildcard, and no AVP may have this name\n\
    Code CommandCode GroupCode: 0x.. or 0X.. => codes are decimal\n\
    Code: AVP or Code => the code is its number alone, as in %avp Session-Id 263 UTF8String must\n\
    Code: vendor => the vendor follows the code, as %avp NAME CODE vendor 10415 FORMAT RULE\n\
    Code: a name => a name has no spaces: join its words by a dash; the code follows it\n\
    Code: . => a name has letters, digits and dashes\n\
    Vendor: a name => the vendor is given by its number, as vendor 10415 for 3GPP\n\
    VendorOrFormat Format: String or Text => did you mean UTF8String?\n\
    VendorOrFormat Format: Octets or Bytes or Binary => did you mean OctetString?\n\
    VendorOrFormat Format: DiamIdent => did you mean DiameterIdentity?\n\
    VendorOrFormat Format: DiamURI or URI => did you mean DiameterURI?\n\
    VendorOrFormat Format: Enum => did you mean Enumerated?\n\
    VendorOrFormat Format: UInt32 => did you mean Unsigned32?\n\
    VendorOrFormat Format: UInt64 => did you mean Unsigned64?\n\
    VendorOrFormat Format: Int32 => did you mean Integer32?\n\
    VendorOrFormat Format: Int64 => did you mean Integer64?\n\
    VendorOrFormat Format: Date => did you mean Time?\n\
    VendorOrFormat: a number => write vendor before the number of the vendor\n\
    VendorOrFormat Vendor: ( => write a vendor without brackets, as vendor 10415\n\
    VendorOrFormat Vendor: : or = or / => a vendor is written after the code, as vendor 10415\n\
    VendorOrFormat: vendor => vendor is written in small letters\n\
    VendorOrFormat: must or mustnot or any => the data format comes before the rule of the M flag\n\
    MRule: must or mustnot or any => the rules of the M flag are written in small letters: must, mustnot, any\n\
    MRule: may or should => where an RFC says that M may or should be set, the rule is any\n\
    MRule: ( => a list of values follows the rule of an Enumerated AVP, as Enumerated any ( 0 1 )\n\
    MRule: a name => where an RFC's table has M under MUST, the rule is must; where it has it under MUST NOT, mustnot; else \
     any\n\
    Name Code VendorOrFormat Vendor Format MRule: anything or the end => a declaration is %avp NAME CODE [vendor N] FORMAT \
     RULE, as %avp Session-Id 263 UTF8String must\n\
    Values: a number or { or [ or : => a list of values has round brackets, as Enumerated any ( 0 1 4..7 )\n\
    Value: , => the values of a list have no commas between them, as in ( 0 1 4..7 )\n\
    Value: ) => a list has one value at least: where there is none, leave out the brackets\n\
    Value High: a name or = or | or / => a list has the numbers of the values, without their names\n\
    High: a number => a range is LOW..HIGH\n\
    Value High: -.. => a list has values from 0 to 2147483647, and no negative ones: leave the list out, if the AVP has such \
     a value\n\
    Value High: ..-.. => a range of values is written with two dots, as 0..3\n\
    # definitions\n\
    Item: ( => only an Enumerated AVP has a list of values, and it follows the rule of the M flag\n\
    Item: AVP => an AVP is declared as %avp NAME CODE [vendor N] FORMAT RULE, and a table of an RFC isn't read\n\
    Item: , => declarations and definitions have no commas between them: take it out\n\
    Item: a number => this looks like the number of a line or of a section: take such numbers out, and put ; before prose\n\
    Assign: :=.. or ::.. or : =.. => the sign of a definition is ::=\n\
    Assign: after avp => a declaration begins with %avp\n\
    Beginning: anything => after ::= comes a header: < Diameter Header: CODE, REQ > for a request, without REQ for an \
     answer, or < AVP Header: CODE > for a group\n\
    CommandCode: a name => a command has its number in the header, as 272 for Credit-Control\n\
    GroupCode: a name => a group has the code of its AVP in the header, as 279 for Failed-AVP\n\
    HeadFlags HeadApp: Cx or Dx => an application has its number in the header: that of Cx is 16777216\n\
    HeadFlags HeadApp: Sh => an application has its number in the header: that of Sh is 16777217\n\
    HeadFlags HeadApp: Rx => an application has its number in the header: that of Rx is 16777236\n\
    HeadFlags HeadApp: Gx => an application has its number in the header: that of Gx is 16777238\n\
    HeadFlags HeadApp: S6a or S6d => an application has its number in the header: that of S6a is 16777251\n\
    HeadFlags HeadApp: S13 => an application has its number in the header: that of S13 is 16777252\n\
    HeadFlags HeadApp: Ro or Gy => an application has its number in the header: that of Ro is 4\n\
    HeadFlags HeadApp: Rf => an application has its number in the header: that of Rf is 3\n\
    HeadFlags HeadApp: NASREQ => an application has its number in the header: that of NASREQ is 1\n\
    HeadFlags: a name => a request has REQ, and an answer has no word for it; PXY is there where the P flag is set\n\
    HeadApp: a name => an application has its number in the header, as 16777251 for S6a; dictionaries/README.md has \
     others\n\
    HeadError: anything => the answers with an error of all commands have one definition: < Diameter Header: code, ERR >\n\
    HeadClose: , REQ.. or ,REQ.. => REQ precedes the Application-ID, as < Diameter Header: 272, REQ, PXY, 4 >\n\
    HeadClose: a number or , => a command has one Application-ID, and a group one vendor: define the command once for each \
     application\n\
    Late: anything or the end => a fixed rule < X > comes before all rules { X } and [ X ]\n\
    Rule: , => rules have no commas between them: take it out\n\
    Rule: ( => a rule has no round brackets, and its counts come before it, as 1*3 { X }\n\
    Rule: +.. => one or more of X is 1* { X }, and any number * [ X ]\n\
    Rule: ..-.. => the counts of a rule are LEAST*GREATEST, as 0*1 { X }\n\
    Star: anything => counts are LEAST*GREATEST: from 1 to 3 is 1*3, and just 2 is 2*2\n\
    Counted: the end => the counts of a rule come before it, as * [ X ] or 1*3 { X }\n\
    Counted: anything => a rule is [LEAST]*[GREATEST] and then < X >, { X } or [ X ], as 1*3 { X }\n\
    Fixed: AVP => AVP in a rule is the wildcard, and can't be fixed: write { AVP } or [ AVP ]\n\
    Close: a name => a name has no spaces: join its words by a dash\n\
    # what follows the hints on the token of a dictionary\n\
    Assign Token: =.. => a definition is <NAME> ::= < Diameter Header: .. >, and its sign is ::=\n\
    Table: anything => this looks like prose or a table of an RFC: an AVP is declared as %avp NAME CODE [vendor N] FORMAT \
     RULE\n\
    Token: |.. or /.. => a definition has no alternatives: make each an optional rule, as [ X ] [ Y ]\n\
    Prose: after RFC => this looks like a page header or footer of an RFC, or like prose: take it out, or put ; before it\n\
    Prose: a number => a declaration begins with %avp, and a definition with <NAME> ::=\n\
    Prose: anything => this looks like a page header or footer of an RFC, or like prose: take it out, or put ; before it\n\
    ";

/// What is at a place of a text.
#[derive(Clone, Copy)]
pub struct Sight<'a> {
    /// What it is, as signs name it.
    pub kind: &'a str,
    pub word: &'a [u8],
    /// The text from the word on.
    pub rest: &'a [u8],
    /// The word before it.
    pub before: &'a [u8],
}

/// The first hint for one of these places of which a sign is seen.
pub fn hint_of(places: &[&str], sight: &Sight<'_>) -> Option<&'static str> {
    for row in HINTS.lines() {
        if let Some(hint) = hint_in(row, places, sight) {
            return Some(hint);
        }
    }
    None
}

/// The hint of a row, if it is for one of these places, and one of its signs is seen.
fn hint_in(row: &'static str, places: &[&str], sight: &Sight<'_>) -> Option<&'static str> {
    let (named, rest) = row.split_once(": ")?;
    let (signs, hint) = rest.split_once(" => ")?;
    if is_named(places, named) && is_any_seen(signs, sight) {
        Some(hint)
    } else {
        None
    }
}

fn is_named(places: &[&str], named: &str) -> bool {
    for place in named.split(' ') {
        if (&*places).contains(&place) {
            return true;
        }
    }
    false
}

fn is_any_seen(signs: &str, sight: &Sight<'_>) -> bool {
    for sign in signs.split(" or ") {
        if is_seen(sign, sight) {
            return true;
        }
    }
    false
}

fn is_seen(sign: &str, sight: &Sight<'_>) -> bool {
    if let Some(word) = sign.strip_prefix("after ") {
        sight.before.eq_ignore_ascii_case(word.as_bytes())
    } else if let Some(front) = sign.strip_suffix("..") {
        match front.strip_prefix("..") {
            Some(part) => has_part(sight.word, part.as_bytes()),
            None => sight.rest.starts_with(front.as_bytes()),
        }
    } else if sign == "anything" {
        !sight.word.is_empty()
    } else {
        sign == sight.kind || sight.word.eq_ignore_ascii_case(sign.as_bytes())
    }
}
