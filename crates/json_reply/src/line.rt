//! The line of a reply.
ghost use Rattle.std.specs.Prelude.{◌≡◌, IfOk};
ghost use Rattle.std.specs.Str.{encode_utf8_all};
ghost use Rattle.serde_json.specs.View.{view};
ghost use Rattle.json_reply.specs.Kept.{IsKept};
ghost use Rattle.json_reply.specs.Line.{reply_json, reply_line};

use crate::object::Object;
use crate::reply::Reply;
use crate::rows::put_body;
use serde_json::Value;
use std::alloc::Global;
use vg_base::{Memory, Text};

/// The line of the reply, its line feed with it.
pub fn reply_text(alloc: Global, reply: &Reply) -> Result<Text, Memory>
    ensures line { IfOk result (λ text. encode_utf8_all text ≡ reply_line reply.now) }
    ensures kept { IfOk result (λ text. IsKept reply.now) }
{
    let mut line = reply_value(alloc, reply)?.to_string(alloc)?;
    line.push('\n')?;
    Ok(Text::from_string(line))
}

/// The JSON of the reply.
fn reply_value(alloc: Global, reply: &Reply) -> Result<Value, Memory>
    ensures json { IfOk result (λ value. view value ≡ reply_json reply.now) }
    ensures kept { IfOk result (λ value. IsKept reply.now) }
{
    let mut object = Object::new(alloc);
    object.area(reply.area)?;
    put_body(&mut object, reply.line, &reply.body)?;
    Ok(object.into_value())
}
