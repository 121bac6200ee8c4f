//! Hints about words that are at fault.

/// A line that `show` prints.
pub const SHOWN: &str =
    "this is a line of `diacmd show`: `diacmd show --as-text` writes the text that `make` reads";

/// A line of a dictionary.
pub const DICTIONARY: &str =
    "this looks like a dictionary: `diacmd make --dict D TEXT` takes it as D, and the messages as TEXT";

/// A message in hexadecimal digits.
pub const DIGITS: &str =
    "this looks like a message in hexadecimal: `diacmd show --as-text` writes the text of one";

/// A line before this one that has a carriage return, and else nothing.
pub const RETURNS: &str =
    "an empty line ends a message, and the line before this one has a carriage return: \
     `tr -d '\\r'` takes it out";

/// A name or a value with `=` or `:` between them.
pub const SIGN: &str = "only blanks separate a name and its value: leave out = and :";

/// A text that has no closing quote.
pub const CLOSED: &str = "the closing quote is missing on this line";

/// A text in which a backslash has no two digits.
pub const ESCAPED: &str =
    "x and two hexadecimal digits follow a backslash: \\x5c is the backslash itself, \\x22 the quote";

/// A text in other quotes.
pub const OTHER_QUOTES: &str = "a text is in double quotes, the ASCII sign \" before and after it";

/// A number in quotes.
pub const NUMBER: &str = "a number has no quotes";

/// Digits, of which one has no second.
pub const PAIRS: &str = "a byte is two hexadecimal digits: the number of digits after x is even";

/// A comma after an AVP that is in no group on one line.
pub const COMMA: &str =
    "an AVP is on a line of its own; commas are between the members of a group that is on one line";

/// The next member of a group on one line, without a comma before it.
pub const MEMBER: &str = "a comma is between two members of a group that is on one line";
