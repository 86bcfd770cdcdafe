//! What the server keeps, and its reply to a line.
ghost use Rattle.std.specs.Prelude.{◌≡◌, ◌≢◌, ℕ, ◌+◌, ◌^◌, ◌<◌, ◌≤◌, List, length, Some, Ok, Err, IfOk, IfSome, OnErr, IsTrue, MatchOption, [], ◌∷◌, ◌↔◌};
ghost use Rattle.server_shell.specs.declared.first_form.command.Command.TheVariants as command;
ghost use Rattle.server_shell.specs.first_form.Forms.{IsKey, IsFormText};
ghost use Rattle.server_shell.specs.first_form.Replies.{CanPublish, CanPut, CanTry, Either, HeardReplies, MatchesOver, Replies, TriesOver, not_built};
ghost use Rattle.server_shell.specs.first_form.State.{after_command, after_heard, start};
ghost use Rattle.server_shell.specs.first_form.Words.{words_of};

use super::command::Command;
use super::form::{has_alternative, is_key, read_text};
use super::hearing::Heard;
use super::reply::{Body, Refusal};
use super::words::{bytes_in, joined, words_of};
use std::alloc::Global;
use std::marker::Model;
use vg_base::{Memory, Text};

/// The most bytes of a text.
const TEXT_LIMIT: usize = 16_384;

/// The most words of a try.
const WORDS_LIMIT: usize = 64;

/// The most bytes of a try's words.
const WORD_BYTES_LIMIT: u64 = 16_384;

/// A document: its key and its text.
#[derive(Drop)]
struct Document {
    uri: Text,
    text: Vec<char>,
}

impl Model for Document {
    ghost use Rattle.std.specs.Prelude.{List, ℕ};
    ghost use Rattle.server_shell.specs.first_form.State.{KeyedText};
    ghost use Rattle.server_shell.specs.first_form.Forms.{IsFormText};

    ghost Value = { KeyedText };

    ghost view = { λ d. record { uri = d.uri; text = d.text.items } };

    ghost invariant = { λ d. IsFormText d.text.items };
}

/// What is staged and published.
#[derive(Drop)]
pub struct Server {
    staged: Option<Document>,
    published: Option<Document>,
    version: u64,
    alloc: Global,
}

impl Model for Server {
    ghost use Rattle.server_shell.specs.first_form.State.{State};

    ghost Value = { State };

    ghost view = { λ s. record {
      staged = s.staged;
      published = s.published;
      version = s.version;
    } };
}

const NOT_BUILT: Body = Body::Refused {
    refusal: Refusal::NotBuilt,
    version: None,
};

const LINE_LONG: Body = Body::Refused {
    refusal: Refusal::LineLong,
    version: None,
};

impl Document {
    fn copy(&self, alloc: Global) -> Result<Document, Memory>
        ensures { IfOk result (λ copy. copy ≡ self.now) }
    {
        Ok(Document {
            uri: self.uri.copy()?,
            text: Vec::from_slice(alloc, &self.text)?,
        })
    }

    /// The reply to words over this document.
    fn reply_to(&self, alloc: Global, version: u64, words: &[Text]) -> Result<Body, Memory>
        ensures { IfOk result (λ body. MatchesOver version self.now words.now body) }
    {
        let Some(form) = read_text(&self.text) else {
            unreachable!()
        };
        if has_alternative(alloc, form.alternatives, words)? {
            Ok(Body::Match {
                version,
                uri: self.uri.copy()?,
                rule: Text::from_characters(alloc, form.name)?,
                result: joined(alloc, words)?,
            })
        } else {
            Ok(Body::NoMatch { version })
        }
    }
}

/// The characters of a text of the form.
fn read_characters(alloc: Global, text: &Text) -> Result<Option<Vec<char>>, Memory>
    ensures { IfOk result (λ r. MatchOption r (¬ IsFormText text.now)
        (λ v. IsFormText text.now × (v.items ≡ text.now))) }
{
    if text.as_str().len() > TEXT_LIMIT {
        return Ok(None);
    }
    let characters = text.characters(alloc)?;
    match read_text(&characters) {
        Some(_) => Ok(Some(characters)),
        None => Ok(None),
    }
}

/// Whether the text is a key of the form.
fn is_key_text(alloc: Global, uri: &Text) -> Result<bool, Memory>
    ensures { IfOk result (λ is. IsTrue is ↔ IsKey uri.now) }
{
    let characters = uri.characters(alloc)?;
    Ok(is_key(&characters))
}

/// The document of a put, where its key and its text are of the form.
fn read_put(alloc: Global, uri: Text, text: Text) -> Result<Option<Document>, Memory>
    ensures { IfOk result (λ r. MatchOption r (IsKey uri → IsFormText text → ⊥)
        (λ d. IsKey uri × IsFormText text × (d ≡ record { uri = uri; text = text }))) }
{
    if !is_key_text(alloc, &uri)? {
        return Ok(None);
    }
    match read_characters(alloc, &text)? {
        Some(characters) => Ok(Some(Document {
            uri,
            text: characters,
        })),
        None => Ok(None),
    }
}

/// Whether this is the only entry.
fn is_only(entries: &[Text], uri: &Text) -> bool
    ensures { IsTrue result ↔ (entries.now ≡ uri.now ∷ []) }
{
    entries.len() == 1 && entries[0] == *uri
}

/// Whether the words are few enough.
fn can_try(words: &[Text]) -> bool
    ensures { IsTrue result ↔ CanTry words.now }
{
    words.len() <= WORDS_LIMIT && bytes_in(words, WORD_BYTES_LIMIT) <= WORD_BYTES_LIMIT
}

impl Server {
    pub fn new(alloc: Global) -> Server
        ensures { result ≡ start }
    {
        Server {
            staged: None,
            published: None,
            version: 0,
            alloc,
        }
    }

    fn is_alone(&self, uri: &Text) -> bool
        ensures { IsTrue result ↔ IfSome self.now.staged (λ d. d.uri ≡ uri.now) }
    {
        match &self.staged {
            Some(document) => document.uri == *uri,
            None => true,
        }
    }

    fn put(&mut self, uri: Text, text: Text) -> Result<Body, Memory>
        ensures reply { IfOk result (λ body.
            Either (CanPut self.old uri text) (body ≡ Body.Staged) (body ≡ not_built)) }
        ensures after { IfOk result (λ body.
            self.new ≡ after_command self.old (command.Put uri text) body) }
        ensures err { OnErr result (self.new ≡ self.old) }
        ensures same { self.new.version ≡ self.old.version }
    {
        let Some(document) = read_put(self.alloc, uri, text)? else {
            return Ok(NOT_BUILT);
        };
        if !self.is_alone(&document.uri) {
            return Ok(NOT_BUILT);
        }
        self.staged = Some(document);
        Ok(Body::Staged)
    }

    fn can_publish(&self, entries: &[Text]) -> bool
        ensures { IsTrue result ↔ CanPublish self.now entries.now }
    {
        match &self.staged {
            Some(document) => is_only(entries, &document.uri),
            None => false,
        }
    }

    fn publish(&mut self, entries: &[Text]) -> Result<Body, Memory>
        requires { self.old.version < 2 ^ 63 }
        ensures reply { IfOk result (λ body. Either (CanPublish self.old entries.now)
            (body ≡ Body.Published (self.old.version + 1) 1) (body ≡ not_built)) }
        ensures after { IfOk result (λ body.
            self.new ≡ after_command self.old (command.Publish entries.now) body) }
        ensures err { OnErr result (self.new ≡ self.old) }
        ensures rises { self.new.version ≤ self.old.version + 1 }
    {
        if !self.can_publish(entries) {
            return Ok(NOT_BUILT);
        }
        self.published = match &self.staged {
            Some(document) => Some(document.copy(self.alloc)?),
            None => None,
        };
        self.version += 1;
        Ok(Body::Published {
            version: self.version,
            documents: 1,
        })
    }

    fn try_tokens(&self, uri: &Text, tokens: &[Text]) -> Result<Body, Memory>
        ensures { IfOk result (λ body. Either (CanTry (words_of tokens.now))
            (TriesOver self.now uri.now (words_of tokens.now) body) (body ≡ not_built)) }
    {
        let words = words_of(self.alloc, tokens)?;
        if !can_try(words.as_slice()) {
            return Ok(NOT_BUILT);
        }
        match &self.published {
            Some(document) if document.uri == *uri => document.reply_to(
                self.alloc,
                self.version,
                words.as_slice(),
            ),
            _ => Ok(Body::Refused {
                refusal: Refusal::NoDocument,
                version: Some(self.version),
            }),
        }
    }

    /// The reply to a command.
    fn apply(&mut self, command: Command) -> Body
        requires { self.old.version < 2 ^ 63 }
        ensures reply { Replies self.old command result }
        ensures after { self.new ≡ after_command self.old command result }
        ensures rises { self.new.version ≤ self.old.version + 1 }
    {
        let body = match command {
            Command::Run => return Body::Ran,
            Command::Put { uri, text } => self.put(uri, text),
            Command::Publish { entries } => self.publish(entries.as_slice()),
            Command::Try { uri, tokens } => self.try_tokens(&uri, tokens.as_slice()),
        };
        match body {
            Ok(body) => body,
            Err(Memory) => Body::Memory,
        }
    }

    /// The reply to what was heard in a line.
    pub fn answer(&mut self, heard: Heard) -> Body
        requires { self.old.version < 2 ^ 63 }
        ensures reply { HeardReplies self.old heard result }
        ensures after { self.new ≡ after_heard self.old heard result }
        ensures rises { self.new.version ≤ self.old.version + 1 }
    {
        match heard {
            Heard::Long => LINE_LONG,
            Heard::Unknown => NOT_BUILT,
            Heard::Said(command) => self.apply(command),
        }
    }
}
