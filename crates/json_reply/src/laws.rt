//! Laws of the definitions, each the contract of a function that does nothing.
ghost use Rattle.json_reply.specs.Laws.{LinesEndOnce, LinesTellReplies};

/// Two replies with one line are one.
pub fn lines_tell_replies()
    ensures { LinesTellReplies }
{}

/// A line has one line feed, its last byte.
pub fn lines_end_once()
    ensures { LinesEndOnce }
{}
