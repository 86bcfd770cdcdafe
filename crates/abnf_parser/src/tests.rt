use crate::read_written;
use std::alloc::{AllocError, Global};
use std::process::Abort;
use std::test::Fail;
use vg_base::Text;

/// How many declarations and rules a text has, or why it is refused.
fn answer(alloc: Global, text: &Text) -> Result<String, AllocError> {
    match read_written(alloc, text) {
        Ok(document) => {
            let declarations = document.declarations.len();
            let rules = document.rules.len();
            format!(in alloc; "{declarations} {rules}")
        }
        Err(refused) => format!(in alloc; "{refused}"),
    }
}

fn expect(rt: &impl Abort, alloc: Global, text: &str, want: &str) -> Result<(), Fail> {
    let found = answer(alloc, &Text::of(alloc, text)?)?;
    assert_eq!(rt; found.as_str(), want, "{text:?}");
    Ok(())
}

/// The text behind the header.
fn expect_behind(rt: &impl Abort, alloc: Global, rest: &str, want: &str) -> Result<(), Fail> {
    let text = format!(in alloc; "#ABNF 1.0;{rest}")?;
    expect(rt, alloc, text.as_str(), want)
}

/// A rule with this body.
fn expect_body(rt: &impl Abort, alloc: Global, body: &str, want: &str) -> Result<(), Fail> {
    let text = format!(in alloc; "#ABNF 1.0;$r = {body}")?;
    expect(rt, alloc, text.as_str(), want)
}

#[test]
fn headers_and_cutting_come_first(rt: HostRuntime) -> Result<(), Fail> {
    let alloc = rt.alloc();
    expect(&rt, alloc, "#ABNF 2.0;", "Version at 1:7")?;
    expect(&rt, alloc, "#ABNF 1.0 KOI8-R;", "Encoding at 1:11")?;
    expect(&rt, alloc, "#ABNF 1.0;$r = \"a;", "Unclosed at 1:16")?;
    expect(&rt, alloc, "#ABNF 2.0;$r = ;\"", "Version at 1:7")?;
    expect(&rt, alloc, "#ABNF 1.0;; $a.", "BadCharacter at 1:15")?;
    expect(&rt, alloc, "#ABNF 1.0;", "0 0")
}

#[test]
fn declarations(rt: HostRuntime) -> Result<(), Fail> {
    let alloc = rt.alloc();
    expect_behind(&rt, alloc, "language en-US;mode voice;mode dtmf;", "3 0")?;
    expect_behind(&rt, alloc, "root $r;tag-format <a>;base <2>;", "3 0")?;
    expect_behind(
        &rt,
        alloc,
        "lexicon <a>;lexicon <a>~<b>;language mode;",
        "3 0",
    )?;
    expect_behind(
        &rt,
        alloc,
        "meta \"a\" is \"b\";http-equiv \"a\" is \"b\";",
        "2 0",
    )?;
    expect_behind(&rt, alloc, "language en_US;", "Unexpected at 1:20")?;
    expect_behind(&rt, alloc, "mode speech;", "Unexpected at 1:16")?;
    expect_behind(&rt, alloc, "base <a>~<b>;", "Unexpected at 1:16")?;
    expect_behind(&rt, alloc, "meta \"a\" \"b\";", "Unexpected at 1:20")?;
    expect_behind(&rt, alloc, "root $r", "Unexpected at 1:18")?;
    expect_behind(&rt, alloc, "title <a>;", "Unexpected at 1:11")
}

#[test]
fn rules(rt: HostRuntime) -> Result<(), Fail> {
    let alloc = rt.alloc();
    expect_behind(&rt, alloc, "mode voice;$r = a;public $s = b;", "1 2")?;
    expect_behind(&rt, alloc, "private $r = public private;", "0 1")?;
    expect_behind(&rt, alloc, "$r = a;mode voice;", "Unexpected at 1:18")?;
    expect_behind(&rt, alloc, "\"public\" $r = a;", "Unexpected at 1:11")?;
    expect_behind(&rt, alloc, "public public $r = a;", "Unexpected at 1:18")?;
    expect_behind(&rt, alloc, "$r a;", "Unexpected at 1:14")
}

#[test]
fn bodies(rt: HostRuntime) -> Result<(), Fail> {
    let alloc = rt.alloc();
    expect_body(
        &rt,
        alloc,
        "/1/ a \"b c\" $d $<e>~<f> {g} | () [h|i] (j);",
        "0 1",
    )?;
    expect_body(&rt, alloc, "a !en <2> b <2> !en c !en d <0->;", "0 1")?;
    expect_body(&rt, alloc, "()<0->;", "0 1")?;
    expect_body(&rt, alloc, "a<99999999999>;", "0 1")?;
    expect_body(&rt, alloc, ";", "Unexpected at 1:16")?;
    expect_body(&rt, alloc, "a", "Unexpected at 1:17")?;
    expect_body(&rt, alloc, "( a | );", "Unexpected at 1:22")?;
    expect_body(&rt, alloc, "[];", "Unexpected at 1:17")?;
    expect_body(&rt, alloc, "( a ];", "Unexpected at 1:20")?;
    expect_body(&rt, alloc, "{a} <2>;", "Unexpected at 1:20")?;
    expect_body(&rt, alloc, "a <2> <3>;", "Unexpected at 1:22")?;
    expect_body(&rt, alloc, "a /2/ b;", "Unexpected at 1:18")?;
    expect_body(&rt, alloc, "a <b>;", "Unexpected at 1:18")
}

/// As many times this, one after another.
fn times(alloc: Global, count: u32, piece: &str) -> Result<String, AllocError> {
    let mut text = String::new(alloc);
    for _ in 0..count {
        text.push_str(piece)?;
    }
    Ok(text)
}

#[test]
fn brackets_as_deep_as_they_may_be(rt: HostRuntime) -> Result<(), Fail> {
    let alloc = rt.alloc();
    let opened = times(alloc, 64, "(")?;
    let closed = times(alloc, 64, ")")?;
    let whole = format!(in alloc; "{opened}a{closed};")?;
    expect_body(&rt, alloc, whole.as_str(), "0 1")?;
    let deeper = format!(in alloc; "({opened}")?;
    expect_body(&rt, alloc, deeper.as_str(), "Deep at 1:80")
}
