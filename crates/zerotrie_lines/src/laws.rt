//! Laws of the definitions. A law is an empty function: a call of it brings its clause into the
//! caller's proof.

ghost use Rattle.zerotrie_lines.specs.Laws.{EscapedReadsBack, LinesReadBack, OneReading, BadIsUnread};

/// A key that was written spells that key, and no other.
pub fn escaped_reads_back()
    ensures { EscapedReadsBack }
{}

/// The lines of pairs, as they are written, are these pairs.
pub fn lines_read_back()
    ensures { LinesReadBack }
{}

/// An input is one list of pairs at most.
pub fn one_reading()
    ensures { OneReading }
{}

/// An input with a line or record that is no pair is no pairs.
pub fn bad_is_unread()
    ensures { BadIsUnread }
{}
