//! Why a command is refused.
ghost use Rattle.std.specs.Prelude.{◌≡◌};
ghost use Rattle.json_reply.specs.Names.{refusal_name};

/// Why a command is refused: lines that are no command, sessions, staging and publishing, then
/// rules and matches.
#[derive(Clone, Copy, Debug, PartialEq, Eq)]
pub enum Refusal {
    /// The line is over 2,097,152 bytes.
    LineLong,
    /// The line is no JSON text.
    BadJson,
    /// The JSON value is no command.
    NotCommand,
    /// The session is open.
    SessionThere,
    /// The session is not open.
    NoSession,
    /// 64 sessions of the area are open.
    SessionsFull,
    /// The text is no key of a document.
    NotUri,
    /// 64 documents are staged.
    DocsFull,
    /// The staged texts would be over 1,048,576 bytes.
    TextOver,
    /// The document is not staged.
    NotStaged,
    /// The documents of a publish have faults.
    Refused,
    /// The document is not there.
    NoDocument,
    /// The rule is not defined.
    NoRule,
    /// The rule is private.
    NotPublic,
    /// The document has no root.
    NoRoot,
    /// 32 others are active.
    ActivationsFull,
    /// The rule is not active.
    NotActive,
    /// More than 64 words, or more than 16,384 bytes of them.
    WordsOver,
    /// What was pressed is no list of keys.
    BadKey,
}

impl Refusal {
    /// The refusal's name as replies print it.
    pub fn name(self) -> &'static str
        ensures { result.now ≡ refusal_name self }
    {
        match self {
            Refusal::LineLong => "LineLong",
            Refusal::BadJson => "BadJson",
            Refusal::NotCommand => "NotCommand",
            Refusal::SessionThere => "SessionThere",
            Refusal::NoSession => "NoSession",
            Refusal::SessionsFull => "SessionsFull",
            Refusal::NotUri => "NotUri",
            Refusal::DocsFull => "DocsFull",
            Refusal::TextOver => "TextOver",
            Refusal::NotStaged => "NotStaged",
            Refusal::Refused => "Refused",
            Refusal::NoDocument => "NoDocument",
            Refusal::NoRule => "NoRule",
            Refusal::NotPublic => "NotPublic",
            Refusal::NoRoot => "NoRoot",
            Refusal::ActivationsFull => "ActivationsFull",
            Refusal::NotActive => "NotActive",
            Refusal::WordsOver => "WordsOver",
            Refusal::BadKey => "BadKey",
        }
    }
}
