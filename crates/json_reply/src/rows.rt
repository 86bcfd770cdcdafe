//! The rows of the table of replies.
ghost use Rattle.std.specs.Prelude.{◌≡◌, [], ◌∷◌, OnOk};
ghost use Rattle.json_reply.specs.Kept.{IsKeptBody, IsNumber};
ghost use Rattle.json_reply.specs.Rows.{fields_of, line_field, reply_field, version_field};
ghost use Rattle.json_reply.specs.code.Putting.{held, put_each};
ghost use Rattle.json_reply.specs.declared.reply.Body.{Body};

use crate::lists::{put_faults, put_result, put_results};
use crate::object::Object;
use crate::refusal::Refusal;
use crate::reply::Body;
use linker::SetFault;
use uri_links::UriFault;
use vg_base::{Memory, VersionNo};

/// The members of a reply with this body to this line, but `area`.
pub(crate) fn put_body(object: &mut Object, line: u64, body: &Body) -> Result<(), Memory>
    ensures put { OnOk result (held object.new
        ≡ put_each (held object.old) (fields_of line body.now)) }
    ensures kept { OnOk result (IsNumber line × IsKeptBody body.now) }
{
    match body {
        Body::Staged => object.reply(line, "staged"),
        Body::Dropped => object.reply(line, "dropped"),
        Body::Opened => object.reply(line, "opened"),
        Body::Closed => object.reply(line, "closed"),
        Body::Ran => object.reply(line, "ran"),
        Body::Memory => object.reply(line, "memory"),
        Body::Published { version, documents } => published(object, line, *version, *documents),
        Body::Activated { version } => with_version(object, line, "activated", *version),
        Body::Deactivated { version } => with_version(object, line, "deactivated", *version),
        Body::Match {
            version,
            uri,
            rule,
            result: meant,
            gone,
        } => {
            object.begin(*gone, line, "match")?;
            put_result(object, meant)?;
            object.end(rule, uri, *version)
        }
        Body::Best {
            version,
            uri,
            rule,
            results: meant,
            gone,
        } => {
            object.begin(*gone, line, "match")?;
            put_results(object, meant.as_slice())?;
            object.end(rule, uri, *version)
        }
        Body::NoMatch { version, gone } => {
            object.begin(*gone, line, "nomatch")?;
            object.version(*version)
        }
        Body::TagFault {
            version,
            uri,
            rule,
            kind,
            gone,
        } => {
            object.tag(*kind)?;
            object.begin(*gone, line, "tagfault")?;
            object.end(rule, uri, *version)
        }
        Body::Refused {
            refusal,
            cause,
            version,
        } => refused(object, line, *refusal, *cause, *version),
        Body::Faulty { first, count } => faulty(object, line, first.as_slice(), *count),
    }
}

fn published(
    object: &mut Object,
    line: u64,
    version: VersionNo,
    documents: u32,
) -> Result<(), Memory>
    ensures put { OnOk result (held object.new
        ≡ put_each (held object.old) (fields_of line (Body.Published version documents))) }
    ensures kept { IsNumber line × IsKeptBody (Body.Published version documents) }
{
    object.number("documents", documents as u64)?;
    with_version(object, line, "published", version)
}

fn with_version(
    object: &mut Object,
    line: u64,
    word: &str,
    version: VersionNo,
) -> Result<(), Memory>
    ensures put { OnOk result (held object.new
        ≡ put_each (held object.old)
        (line_field line ∷ reply_field word.now ∷ version_field version ∷ [])) }
    ensures kept { IsNumber line × IsNumber version.0 }
{
    object.reply(line, word)?;
    object.version(version)
}

fn refused(
    object: &mut Object,
    line: u64,
    refusal: Refusal,
    cause: Option<UriFault>,
    version: Option<VersionNo>,
) -> Result<(), Memory>
    ensures put { OnOk result (held object.new
        ≡ put_each (held object.old) (fields_of line (Body.Refused refusal cause version))) }
    ensures kept { IsNumber line × IsKeptBody (Body.Refused refusal cause version) }
{
    object.cause(cause)?;
    object.number("line", line)?;
    object.word("refusal", refusal.name())?;
    object.word("reply", "refused")?;
    object.asked(version)
}

fn faulty(object: &mut Object, line: u64, first: &[SetFault], count: u64) -> Result<(), Memory>
    ensures put { OnOk result (held object.new
        ≡ put_each (held object.old) (fields_of line (Body.Faulty first.now count))) }
    ensures kept { OnOk result (IsNumber line × IsKeptBody (Body.Faulty first.now count)) }
{
    object.number("count", count)?;
    put_faults(object, first)?;
    object.number("line", line)?;
    object.word("refusal", Refusal::Refused.name())?;
    object.word("reply", "refused")
}
