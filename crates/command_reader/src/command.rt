//! The commands of the protocol.
ghost use Rattle.std.specs.Prelude.{◌≡◌};
ghost use Rattle.command_reader.specs.Facts.{parses_of};

use vg_base::{Area, Items, Text};

/// A command with the area that it is for.
#[derive(Debug, Drop)]
pub struct Called {
    pub area: Area,
    pub command: Command,
}

#[derive(Debug, Drop)]
pub enum Command {
    Admin(AdminCommand),
    /// Opens the session of this name.
    Open(Text),
    /// Closes the session of this name.
    Close(Text),
    ForSession { name: Text, command: SessionCommand },
    Try(TryCommand),
    /// Ends the batch.
    Run,
}

/// What changes the staged documents of an area, or publishes them.
#[derive(Debug, Drop)]
pub enum AdminCommand {
    Put { uri: Text, text: Text },
    Drop { uri: Text },
    Publish { entries: Items<Text> },
}

/// What a session is asked. Without a rule the root of the document is meant.
#[derive(Debug, Drop)]
pub enum SessionCommand {
    Activate { uri: Text, rule: Option<Text> },
    Deactivate { uri: Text, rule: Option<Text> },
    /// `best` is the most parses that are asked for; without it one is, the first.
    Match { line: MatchLine, best: Option<u32> },
}

/// A match against one rule, without a session. Without a rule the root of the document is meant.
#[derive(Debug, Drop)]
pub struct TryCommand {
    pub uri: Text,
    pub rule: Option<Text>,
    pub line: MatchLine,
    /// The most parses that are asked for; without it one is, the first.
    pub best: Option<u32>,
}

/// What was said, or which keys were pressed.
#[derive(Debug, Drop)]
pub enum MatchLine {
    Tokens(Items<Text>),
    Keys(Text),
}

/// How many parses are asked for at most, by what `best` says.
pub fn parses_of(best: Option<u32>) -> u32
    ensures { result ≡ parses_of best }
{
    best.unwrap_or(1)
}
