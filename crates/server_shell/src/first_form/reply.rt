//! Replies, and their lines.
ghost use Rattle.std.specs.Prelude.{◌≡◌, IfOk, string_bytes};
ghost use Rattle.serde_json.specs.View.{view};
ghost use Rattle.server_shell.specs.first_form.Lines.{line_of, data_of, name_of};

use serde_json::{Value, json};
use std::alloc::{AllocError, Global};
use vg_base::{Memory, Text};

#[derive(Clone, Copy, Drop, Debug)]
pub enum Refusal {
    LineLong,
    NotBuilt,
    NoDocument,
}

#[derive(Drop, Debug)]
pub enum Body {
    Staged,
    Published {
        version: u64,
        documents: u32,
    },
    Ran,
    Match {
        version: u64,
        uri: Text,
        rule: Text,
        result: Text,
    },
    NoMatch {
        version: u64,
    },
    Refused {
        refusal: Refusal,
        version: Option<u64>,
    },
    Memory,
}

#[derive(Drop, Debug)]
pub struct Reply {
    pub line: u64,
    pub body: Body,
}

/// The JSON value of a reply.
fn reply_value(alloc: Global, reply: &Reply) -> Result<Value, AllocError>
    ensures { IfOk result (λ v. view v ≡ data_of reply.now) }
{
    let line = reply.line;
    match &reply.body {
        Body::Staged => json!(in alloc; {"line": line, "reply": "staged"}),
        Body::Published { version, documents } => published_value(
            alloc, line, *version, *documents,
        ),
        Body::Ran => json!(in alloc; {"line": line, "reply": "ran"}),
        Body::Match {
            version,
            uri,
            rule,
            result: words,
        } => match_value(alloc, line, *version, uri, rule, words),
        Body::NoMatch { version } =>
            json!(in alloc; {"line": line, "reply": "nomatch", "version": *version}),
        Body::Refused { refusal, version } => refused_value(alloc, line, *refusal, *version),
        Body::Memory => json!(in alloc; {"line": line, "reply": "memory"}),
    }
}

fn published_value(
    alloc: Global,
    line: u64,
    version: u64,
    documents: u32,
) -> Result<Value, AllocError>
    ensures { IfOk result (λ v. view v
        ≡ data_of (record { line = line; body = Body.Published version documents })) }
{
    json!(in alloc; {"line": line, "reply": "published", "documents": documents, "version": version})
}

fn match_value(
    alloc: Global,
    line: u64,
    version: u64,
    uri: &Text,
    rule: &Text,
    words: &Text,
) -> Result<Value, AllocError>
    ensures { IfOk result (λ v. view v
        ≡ data_of (record { line = line; body = Body.Match version uri.now rule.now words.now })) }
{
    json!(in alloc; {"line": line, "reply": "match", "result": words.as_str(), "rule": rule.as_str(), "uri": uri.as_str(), "version": version})
}

fn refused_value(
    alloc: Global,
    line: u64,
    refusal: Refusal,
    version: Option<u64>,
) -> Result<Value, AllocError>
    ensures { IfOk result (λ v. view v
        ≡ data_of (record { line = line; body = Body.Refused refusal version })) }
{
    match version {
        None => json!(in alloc; {"line": line, "reply": "refused", "refusal": refusal.name()}),
        Some(version) =>
            json!(in alloc; {"line": line, "reply": "refused", "refusal": refusal.name(), "version": version}),
    }
}

impl Refusal {
    fn name(self) -> &'static str
        ensures { result.now ≡ name_of self }
    {
        match self {
            Refusal::LineLong => "LineLong",
            Refusal::NotBuilt => "NotBuilt",
            Refusal::NoDocument => "NoDocument",
        }
    }
}

/// The line of a reply.
#[tactic(auto, unfolding(crate::specs::first_form::Lines::line_of))]
pub fn reply_text(alloc: Global, reply: &Reply) -> Result<String, Memory>
    ensures { IfOk result (λ text. string_bytes text ≡ line_of reply.now) }
{
    let value = reply_value(alloc, reply)?;
    let mut text = value.to_string(alloc)?;
    text.push('\n')?;
    Ok(text)
}
