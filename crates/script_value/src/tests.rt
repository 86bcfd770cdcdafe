use crate::{Limit, Value, is_true, same, to_json};
use sqlite_items::Items;
use std::alloc::Global;
use std::test::Fail;
use vg_base::{Memory, Text, TextMap};

fn text(alloc: Global, characters: &str) -> Result<Value, Memory> {
    Ok(Value::Str(Text::of(alloc, characters)?))
}

/// A text of so many bytes.
fn long(alloc: Global, bytes: u32) -> Result<Text, Memory> {
    let mut text = Text::new(alloc);
    for _turn in 0..bytes {
        text.push('x')?;
    }
    Ok(text)
}

/// A list of so many nulls.
fn nulls(alloc: Global, count: u32) -> Result<Value, Memory> {
    let mut values = Items::new(alloc);
    for _turn in 0..count {
        values.push(Value::Null)?;
    }
    Ok(Value::List(values))
}

/// A list of so many strings of 65,536 bytes, and a last value.
fn texts(alloc: Global, count: u32, last: Value) -> Result<Value, Memory> {
    let mut values = Items::new(alloc);
    for _turn in 0..count {
        values.push(Value::Str(long(alloc, 65_536)?))?;
    }
    values.push(last)?;
    Ok(Value::List(values))
}

fn list_of(alloc: Global, value: Value) -> Result<Value, Memory> {
    let mut values = Items::new(alloc);
    values.push(value)?;
    Ok(Value::List(values))
}

fn pair(alloc: Global, first: Value, second: Value) -> Result<Value, Memory> {
    let mut values = Items::new(alloc);
    values.push(first)?;
    values.push(second)?;
    Ok(Value::List(values))
}

fn record_of(alloc: Global, key: Text, value: Value) -> Result<Value, Memory> {
    let mut members = TextMap::new(alloc);
    members.set(key, value)?;
    Ok(Value::Record(members))
}

fn member(alloc: Global, key: &str, value: Value) -> Result<Value, Memory> {
    record_of(alloc, Text::of(alloc, key)?, value)
}

/// A record of three members, put in this order.
fn three(alloc: Global, keys: [&str; 3]) -> Result<Value, Memory> {
    let mut members = TextMap::new(alloc);
    members.set(Text::of(alloc, keys[0])?, Value::Number(0))?;
    members.set(Text::of(alloc, keys[1])?, Value::Number(1))?;
    members.set(Text::of(alloc, keys[2])?, Value::Number(2))?;
    Ok(Value::Record(members))
}

/// A null in so many lists.
fn nested(alloc: Global, lists: u32) -> Result<Value, Memory> {
    let mut value = Value::Null;
    for _turn in 0..lists {
        value = list_of(alloc, value)?;
    }
    Ok(value)
}

fn empty_list(alloc: Global) -> Value {
    Value::List(Items::new(alloc))
}

fn empty_record(alloc: Global) -> Value {
    Value::Record(TextMap::new(alloc))
}

/// The JSON of a copy of the value, compact.
fn printed(alloc: Global, value: Value) -> Result<String, Memory> {
    let copy = value.copy(alloc)?;
    Ok(to_json(alloc, &copy)?.to_string(alloc)?)
}

#[test]
fn values_are_printed_as_json(rt: HostRuntime) -> Result<(), Fail> {
    let alloc = rt.alloc();
    let line = printed(alloc, Value::Null)?;
    assert_eq!(rt; line.as_str(), "null");
    let line = printed(alloc, Value::Truth(true))?;
    assert_eq!(rt; line.as_str(), "true");
    let line = printed(alloc, Value::Number(-9_007_199_254_740_991))?;
    assert_eq!(rt; line.as_str(), "-9007199254740991");
    let line = printed(alloc, text(alloc, "a\"b\n\u{e9}")?)?;
    assert_eq!(rt; line.as_str(), "\"a\\\"b\\n\u{e9}\"");
    let line = printed(alloc, pair(alloc, empty_list(alloc), empty_record(alloc))?)?;
    assert_eq!(rt; line.as_str(), "[[],{}]");
    Ok(())
}

#[test]
fn values_within_values_are_printed(rt: HostRuntime) -> Result<(), Fail> {
    let alloc = rt.alloc();
    let inner = member(alloc, "b", Value::Null)?;
    let value = member(alloc, "a", pair(alloc, Value::Number(1), inner)?)?;
    let line = printed(alloc, value)?;
    assert_eq!(rt; line.as_str(), "{\"a\":[1,{\"b\":null}]}");
    Ok(())
}

#[test]
fn members_stand_in_byte_order(rt: HostRuntime) -> Result<(), Fail> {
    let alloc = rt.alloc();
    let line = printed(alloc, three(alloc, ["\u{e9}", "z", "a"])?)?;
    assert_eq!(rt; line.as_str(), "{\"a\":2,\"z\":1,\"\u{e9}\":0}");
    let line = printed(alloc, three(alloc, ["b", "a", "b"])?)?;
    assert_eq!(rt; line.as_str(), "{\"a\":1,\"b\":2}");
    let line = printed(alloc, three(alloc, ["10", "\u{1f4de}", "\u{ffee}"])?)?;
    assert_eq!(rt; line.as_str(), "{\"10\":0,\"\u{ffee}\":2,\"\u{1f4de}\":1}");
    Ok(())
}

/// The first limit that the value passes.
fn limit_of(value: Value) -> Option<Limit> {
    value.first_limit()
}

#[test]
fn limits_of_values_and_depth(rt: HostRuntime) -> Result<(), Fail> {
    let alloc = rt.alloc();
    assert_eq!(rt; limit_of(Value::Null), None);
    assert_eq!(rt; limit_of(nulls(alloc, 4_095)?), None);
    assert_eq!(rt; limit_of(nulls(alloc, 4_096)?), Some(Limit::Wide));
    assert_eq!(rt; limit_of(nested(alloc, 63)?), None);
    assert_eq!(rt; limit_of(nested(alloc, 64)?), Some(Limit::DeepValue));
    assert_eq!(rt;
        limit_of(pair(alloc, nested(alloc, 64)?, nulls(alloc, 4_096)?)?),
        Some(Limit::Wide)
    );
    Ok(())
}

#[test]
fn limits_of_texts(rt: HostRuntime) -> Result<(), Fail> {
    let alloc = rt.alloc();
    assert_eq!(rt; limit_of(Value::Str(long(alloc, 65_536)?)), None);
    assert_eq!(rt;
        limit_of(Value::Str(long(alloc, 65_537)?)),
        Some(Limit::TextLong)
    );
    assert_eq!(rt; limit_of(texts(alloc, 4, Value::Null)?), None);
    assert_eq!(rt;
        limit_of(texts(alloc, 4, text(alloc, "x")?)?),
        Some(Limit::Wide)
    );
    let long_text = list_of(alloc, Value::Str(long(alloc, 65_537)?))?;
    assert_eq!(rt;
        limit_of(texts(alloc, 4, long_text)?),
        Some(Limit::TextLong)
    );
    Ok(())
}

#[test]
fn keys_count_as_texts_but_not_as_strings(rt: HostRuntime) -> Result<(), Fail> {
    let alloc = rt.alloc();
    let long_key = record_of(alloc, long(alloc, 65_537)?, Value::Null)?;
    assert_eq!(rt; limit_of(long_key), None);
    let all = record_of(
        alloc,
        long(alloc, 196_608)?,
        Value::Str(long(alloc, 65_536)?),
    )?;
    assert_eq!(rt; limit_of(all), None);
    let more = record_of(
        alloc,
        long(alloc, 196_609)?,
        Value::Str(long(alloc, 65_536)?),
    )?;
    assert_eq!(rt; limit_of(more), Some(Limit::Wide));
    Ok(())
}

fn is_same(left: Value, right: Value) -> Option<bool> {
    same(&left, &right)
}

#[test]
fn values_of_one_kind_are_compared(rt: HostRuntime) -> Result<(), Fail> {
    let alloc = rt.alloc();
    assert_eq!(rt; is_same(Value::Null, Value::Null), Some(true));
    assert_eq!(rt;
        is_same(Value::Truth(false), Value::Truth(true)),
        Some(false)
    );
    assert_eq!(rt; is_same(Value::Number(7), Value::Number(7)), Some(true));
    assert_eq!(rt; is_same(text(alloc, "a")?, text(alloc, "a")?), Some(true));
    assert_eq!(rt; is_same(text(alloc, "a")?, text(alloc, "ab")?), Some(false));
    assert_eq!(rt; is_same(text(alloc, "0")?, Value::Number(0)), Some(false));
    assert_eq!(rt; is_same(empty_list(alloc), empty_list(alloc)), None);
    assert_eq!(rt; is_same(empty_record(alloc), empty_record(alloc)), None);
    assert_eq!(rt;
        is_same(empty_list(alloc), empty_record(alloc)),
        Some(false)
    );
    Ok(())
}

fn holds(value: Value) -> bool {
    is_true(&value)
}

#[test]
fn false_zero_null_and_the_empty_string_are_false(rt: HostRuntime) -> Result<(), Fail> {
    let alloc = rt.alloc();
    assert_eq!(rt; holds(Value::Null), false);
    assert_eq!(rt; holds(Value::Truth(false)), false);
    assert_eq!(rt; holds(Value::Number(0)), false);
    assert_eq!(rt; holds(text(alloc, "")?), false);
    assert_eq!(rt; holds(Value::Number(-1)), true);
    assert_eq!(rt; holds(text(alloc, "false")?), true);
    assert_eq!(rt; holds(empty_list(alloc)), true);
    assert_eq!(rt; holds(empty_record(alloc)), true);
    Ok(())
}

#[test]
fn parts_are_found(rt: HostRuntime) -> Result<(), Fail> {
    let alloc = rt.alloc();
    let list = pair(alloc, Value::Null, Value::Truth(true))?;
    assert!(rt; matches!(list.item(1), Some(Value::Truth(true))));
    assert!(rt; list.item(2).is_none());
    assert!(rt; list.item(-1).is_none());
    assert!(rt; list.member(&Text::of(alloc, "1")?).is_none());
    let record = three(alloc, ["a", "b", "c"])?;
    assert!(rt;
        matches!(
            record.member(&Text::of(alloc, "b")?),
            Some(Value::Number(1))
        )
    );
    assert!(rt; record.member(&Text::of(alloc, "d")?).is_none());
    assert!(rt; record.item(0).is_none());
    Ok(())
}
