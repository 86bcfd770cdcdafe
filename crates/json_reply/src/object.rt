//! The JSON object of a reply, to which one member after another is put. The map keeps them in the
//! order of their names.
ghost use Rattle.std.specs.Prelude.{◌≡◌, [], ◌∷◌, Some, IfSome, OnOk, if◌then◌else◌, option_map, codes};
ghost use Rattle.serde_json.specs.Data.{no_members, object, string};
ghost use Rattle.serde_json.specs.View.{view};
ghost use Rattle.command_reader.specs.Written.{area_field, text_field};
ghost use Rattle.json_reply.specs.Kept.{IsCount, IsNumber, IsText};
ghost use Rattle.json_reply.specs.Rows.{asked_field, cause_field, gone_field, line_field, number_field, reply_field, rule_field, tag_field, uri_field, version_field, word_field};
ghost use Rattle.json_reply.specs.code.Putting.{held, put_each};

use serde_json::{Map, Value};
use std::alloc::Global;
use tag_script::TagKind;
use uri_links::UriFault;
use vg_base::{Area, Memory, Text, VersionNo};

/// The members so far.
#[derive(Drop)]
pub(crate) struct Object {
    pub(crate) alloc: Global,
    members: Map<String, Value>,
}

impl Object {
    pub(crate) fn new(alloc: Global) -> Object
        ensures { held result ≡ no_members }
    {
        Object {
            alloc,
            members: Map::new(alloc),
        }
    }

    /// The object as a value.
    pub(crate) fn into_value(self) -> Value
        ensures { view result ≡ object (held self) }
    {
        let Object { members, .. } = self;
        Value::Object(members)
    }

    pub(crate) fn put(&mut self, name: &str, value: Value) -> Result<(), Memory>
        ensures { OnOk result (held self.new
            ≡ put_each (held self.old) ((name.now, Some (view value)) ∷ [])) }
    {
        serde_json::put(&mut self.members, self.alloc, name, value)?;
        Ok(())
    }

    pub(crate) fn number(&mut self, name: &str, number: u64) -> Result<(), Memory>
        ensures put { OnOk result (held self.new
            ≡ put_each (held self.old) (number_field name.now number ∷ [])) }
        ensures kept { IsNumber number }
    {
        self.put(name, Value::from(number))
    }

    /// A member that holds one of the protocol's words.
    pub(crate) fn word(&mut self, name: &str, word: &str) -> Result<(), Memory>
        ensures { OnOk result (held self.new
            ≡ put_each (held self.old) (word_field name.now word.now ∷ [])) }
    {
        let value = Value::String(String::from_str(self.alloc, word)?);
        self.put(name, value)
    }

    pub(crate) fn text(&mut self, name: &str, text: &Text) -> Result<(), Memory>
        ensures put { OnOk result (held self.new
            ≡ put_each (held self.old) (text_field name.now text.now ∷ [])) }
        ensures kept { OnOk result (IsText text.now) }
    {
        self.word(name, text.as_str())
    }

    /// `area`, which is left out at the first.
    pub(crate) fn area(&mut self, area: Area) -> Result<(), Memory>
        ensures put { OnOk result (held self.new
            ≡ put_each (held self.old) (area_field area.0 ∷ [])) }
        ensures kept { IsNumber area.0 }
    {
        match area.0 {
            0 => Ok(()),
            number => self.number("area", number as u64),
        }
    }

    /// `gone`, in a session.
    pub(crate) fn gone(&mut self, gone: Option<u32>) -> Result<(), Memory>
        ensures put { OnOk result (held self.new
            ≡ put_each (held self.old) (gone_field gone ∷ [])) }
        ensures kept { IsCount gone }
    {
        match gone {
            Some(count) => self.number("gone", count as u64),
            None => Ok(()),
        }
    }

    /// `cause`, at a reference that is refused.
    pub(crate) fn cause(&mut self, cause: Option<UriFault>) -> Result<(), Memory>
        ensures { OnOk result (held self.new ≡ put_each (held self.old) (cause_field cause ∷ [])) }
    {
        match cause {
            Some(fault) => self.word("cause", fault.name()),
            None => Ok(()),
        }
    }

    /// `version`, where a version was asked.
    pub(crate) fn asked(&mut self, version: Option<VersionNo>) -> Result<(), Memory>
        ensures put { OnOk result (held self.new
            ≡ put_each (held self.old) (asked_field version ∷ [])) }
        ensures kept { IfSome version (λ v. IsNumber v.0) }
    {
        match version {
            Some(number) => self.version(number),
            None => Ok(()),
        }
    }

    pub(crate) fn version(&mut self, version: VersionNo) -> Result<(), Memory>
        ensures put { OnOk result (held self.new
            ≡ put_each (held self.old) (version_field version ∷ [])) }
        ensures kept { IsNumber version.0 }
    {
        self.number("version", version.0)
    }

    /// `fault`, of a tag.
    pub(crate) fn tag(&mut self, kind: TagKind) -> Result<(), Memory>
        ensures { OnOk result (held self.new ≡ put_each (held self.old) (tag_field kind ∷ [])) }
    {
        self.word("fault", kind.name())
    }

    /// `line` and `reply`.
    pub(crate) fn reply(&mut self, line: u64, word: &str) -> Result<(), Memory>
        ensures put { OnOk result (held self.new
            ≡ put_each (held self.old) (line_field line ∷ reply_field word.now ∷ [])) }
        ensures kept { IsNumber line }
    {
        self.number("line", line)?;
        self.word("reply", word)
    }

    /// `gone`, `line` and `reply`.
    pub(crate) fn begin(&mut self, gone: Option<u32>, line: u64, word: &str) -> Result<(), Memory>
        ensures put { OnOk result (held self.new
            ≡ put_each (held self.old)
            (gone_field gone ∷ line_field line ∷ reply_field word.now ∷ [])) }
        ensures kept { IsCount gone × IsNumber line }
    {
        self.gone(gone)?;
        self.reply(line, word)
    }

    /// `rule`, `uri` and `version`.
    pub(crate) fn end(&mut self, rule: &Text, uri: &Text, version: VersionNo) -> Result<(), Memory>
        ensures put { OnOk result (held self.new
            ≡ put_each (held self.old)
            (rule_field rule.now ∷ uri_field uri.now ∷ version_field version ∷ [])) }
        ensures kept { OnOk result (IsText rule.now × IsText uri.now × IsNumber version.0) }
    {
        self.rule(rule, uri)?;
        self.version(version)
    }

    /// `rule` and `uri`.
    pub(crate) fn rule(&mut self, rule: &Text, uri: &Text) -> Result<(), Memory>
        ensures put { OnOk result (held self.new
            ≡ put_each (held self.old) (rule_field rule.now ∷ uri_field uri.now ∷ [])) }
        ensures kept { OnOk result (IsText rule.now × IsText uri.now) }
    {
        self.text("rule", rule)?;
        self.text("uri", uri)
    }
}
