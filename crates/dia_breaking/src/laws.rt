//! What holds of the lines and the meanings of a command, and where a table shows inclusion.
ghost use Rattle.dia_breaking.specs.Confirmed.{IncludedBreakNothing, IncludedHaveNoLines};
ghost use Rattle.dia_breaking.specs.DataLines.{DataLinesAreApart};
ghost use Rattle.dia_breaking.specs.LineParts.{WordsAreOfParts};
ghost use Rattle.dia_breaking.specs.Listing.{ListingsAreOne};
ghost use Rattle.dia_breaking.specs.Messages.{EachLineHasAMessage, LineMessagesAreBytes, LineMessagesAreOne};
ghost use Rattle.dia_breaking.specs.ShownLines.{LinesAreShown};
ghost use Rattle.dia_breaking.specs.Stocks.{StocksMakeOneMessage};
ghost use Rattle.dia_breaking.specs.TheLines.{TheLinesAreAll, TheLinesAreOne};
ghost use Rattle.dia_breaking.specs.TheMeanings.{TheMeaningsAreOne};

/// Where a table shows inclusion, with the sender's own policy for unknown AVPs on both sides, no message breaks a command that
/// it lists, and no line of such a command is reported as confirmed.
pub fn included_commands_break_nothing()
    ensures messages { IncludedBreakNothing }
    ensures lines { IncludedHaveNoLines }
{}

/// A basis determines the sites and the lines.
pub fn listings_are_one()
    ensures { ListingsAreOne }
{}

/// The message of a line is unique, and its numbers are bytes. The dictionaries, what is sent, and the line's site and cause
/// determine what it is made of.
pub fn line_messages_are_one()
    ensures one { LineMessagesAreOne }
    ensures some { EachLineHasAMessage }
    ensures bytes { LineMessagesAreBytes }
    ensures stocks { StocksMakeOneMessage }
{}

/// The lines of a command report all that breaks: what is free of them is valid under B, also once its header is fixed.
pub fn the_lines_are_all()
    ensures { TheLinesAreAll }
{}

/// A line about data reports what breaks, by its own cause: it names data exactly where the sender's AVPs are no groups, it is
/// about the format exactly where the receiver is known to refuse the data of a shortest one, and it is undecided exactly where
/// the receiver isn't known to refuse any.
pub fn data_lines_are_apart()
    ensures { DataLinesAreApart }
{}

/// Two dictionaries, what is sent and the receiver's policy determine the sites and the lines of a command.
pub fn the_lines_are_one()
    ensures { TheLinesAreOne }
{}

/// Two dictionaries, what is sent and the receiver's policy determine the AVPs of a command that are read as another format.
pub fn the_meanings_are_one()
    ensures { TheMeaningsAreOne }
{}

/// A message that breaks as its line reports shows it: at the line's site is a level that breaks the rules of B's definition as
/// reported, or one with an AVP whose flags or data are the reported ones, and that B refuses.
pub fn lines_are_shown()
    ensures { LinesAreShown }
{}

/// The words of a line of a command are those of its parts.
pub fn words_are_of_parts()
    ensures { WordsAreOfParts }
{}
