//! What holds of what is reported.
ghost use Rattle.dia_upgrades.specs.Recorded.{ConfirmedTextsBreak, MessageTextsAreOne};

use dia_breaking::line_messages_are_one;

/// What follows a confirmed line is the hexadecimal text of bytes that break as the line reports, and that have its length.
pub fn confirmed_texts_break()
    ensures { ConfirmedTextsBreak }
{
    line_messages_are_one();
}

/// What follows a line is one text: what messages are made of leaves no choice.
pub fn message_texts_are_one()
    ensures { MessageTextsAreOne }
{
    line_messages_are_one();
}
