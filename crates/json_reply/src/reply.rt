//! Replies: what is answered to the lines of input.

use crate::refusal::Refusal;
use linker::SetFault;
use script_value::Value;
use tag_script::TagKind;
use uri_links::UriFault;
use vg_base::{Area, Items, Text, VersionNo};

/// The answer to one line of input.
#[derive(Debug, Drop)]
pub struct Reply {
    /// The line's number, from 1.
    pub line: u64,
    /// The area that the line's command is for; 0 where there is none.
    pub area: Area,
    pub body: Body,
}

/// What is answered. `gone` tells how many activations of the session are not live; without a
/// session there is none.
#[derive(Debug, Drop)]
pub enum Body {
    Staged,
    Dropped,
    Opened,
    Closed,
    Ran,
    /// Memory is short, and nothing was done.
    Memory,
    /// The version is published, over so many documents.
    Published {
        version: VersionNo,
        documents: u32,
    },
    Activated {
        version: VersionNo,
    },
    Deactivated {
        version: VersionNo,
    },
    /// The rule derives what was said or pressed, which means this.
    Match {
        version: VersionNo,
        uri: Text,
        rule: Text,
        result: Value,
        gone: Option<u32>,
    },
    /// The same where the best parses were asked for: what each means.
    Best {
        version: VersionNo,
        uri: Text,
        rule: Text,
        results: Items<BestResult>,
        gone: Option<u32>,
    },
    NoMatch {
        version: VersionNo,
        gone: Option<u32>,
    },
    /// A tag of the rule's parse faults. The rule is the one that the tag stands in.
    TagFault {
        version: VersionNo,
        uri: Text,
        rule: Text,
        kind: TagKind,
        gone: Option<u32>,
    },
    /// The command is refused. The cause stands at a reference that is refused, the version where
    /// one was asked.
    Refused {
        refusal: Refusal,
        cause: Option<UriFault>,
        version: Option<VersionNo>,
    },
    /// The publish is refused for its faults: the first of them, and how many there are.
    Faulty {
        first: Items<SetFault>,
        count: u64,
    },
}

/// What one of the best parses means, or why it means nothing.
#[derive(Debug, Drop)]
pub enum BestResult {
    Given(Value),
    Fault(FaultText),
}

/// The fault of a tag, with the rule that it stands in.
#[derive(Debug, Drop)]
pub struct FaultText {
    pub uri: Text,
    pub rule: Text,
    pub kind: TagKind,
}
