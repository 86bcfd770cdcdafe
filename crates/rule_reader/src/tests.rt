use crate::{imports, read_document, references_can_be_resolved};
use std::alloc::{AllocError, Global};
use std::process::Abort;
use std::test::Fail;
use uri_links::Uri;
use vg_base::Text;

/// How many rules a text has, or why it is refused.
fn answer(alloc: Global, text: &Text) -> Result<String, AllocError> {
    match read_document(alloc, text) {
        Ok(document) => {
            let rules = document.rules.len();
            format!(in alloc; "{rules}")
        }
        Err(refused) => format!(in alloc; "{refused}"),
    }
}

/// The text behind the header.
fn expect(rt: &impl Abort, alloc: Global, rest: &str, want: &str) -> Result<(), Fail> {
    let text = format!(in alloc; "#ABNF 1.0;{rest}")?;
    let found = answer(alloc, &Text::of(alloc, text.as_str())?)?;
    assert_eq!(rt; found.as_str(), want, "{rest:?}");
    Ok(())
}

#[test]
fn documents_are_read(rt: HostRuntime) -> Result<(), Fail> {
    let alloc = rt.alloc();
    expect(&rt, alloc, "", "0")?;
    expect(&rt, alloc, "root $r;$r = a \"b c\" <0-1 /0.5/>;", "1")?;
    expect(&rt, alloc, "mode dtmf;$r = 1 2 star <65535>;", "1")?;
    expect(&rt, alloc, "base <a>;$r = $<b#c>~<t> | / .5 / $NULL;", "1")?;
    expect(&rt, alloc, "$r = $<b#caf%C3%A9>;", "1")?;
    expect(
        &rt,
        alloc,
        "tag-format <semantics/1.0>;$r = {out = 1};",
        "1",
    )?;
    expect(
        &rt,
        alloc,
        "tag-format <semantics/1.0-literals>;$r = {9 out = };",
        "1",
    )?;
    expect(&rt, alloc, "$r = {out = };", "1")?;
    expect(&rt, alloc, "lexicon <a>;lexicon <b>;$r = a;$s = b;", "2")
}

#[test]
fn each_fault_has_its_name_and_place(rt: HostRuntime) -> Result<(), Fail> {
    let alloc = rt.alloc();
    expect(&rt, alloc, "mode voice;mode dtmf;", "DeclaredTwice at 1:22")?;
    expect(&rt, alloc, "$r = a;$s = a;$r = b;", "RuleTwice at 1:25")?;
    expect(&rt, alloc, "$VOID = a;", "Reserved at 1:11")?;
    expect(&rt, alloc, "$r = a <3-2>;", "RepeatOrder at 1:18")?;
    expect(&rt, alloc, "$r = a <65536>;", "RepeatLarge at 1:18")?;
    expect(&rt, alloc, "$r = /x/ a;", "BadWeight at 1:16")?;
    expect(&rt, alloc, "$r = /./ a;", "BadWeight at 1:16")?;
    expect(&rt, alloc, "$r = a <1 /1.1/>;", "BadWeight at 1:18")?;
    expect(&rt, alloc, "mode dtmf;$r = 1 x;", "BadKey at 1:28")?;
    expect(&rt, alloc, "$r = $<a b>;", "BadUri at 1:16")?;
    expect(&rt, alloc, "$r = $<a#1>;", "BadUri at 1:16")?;
    expect(&rt, alloc, "$r = $<a#%FF>;", "BadUri at 1:16")?;
    expect(&rt, alloc, "lexicon <a b>;", "BadUri at 1:19")?;
    expect(&rt, alloc, "tag-format <a>;", "TagFormat at 1:22")?;
    expect(
        &rt,
        alloc,
        "tag-format <semantics/1.0>;$r = {9 out = };",
        "BadScript at 1:43",
    )?;
    expect(&rt, alloc, "root $s;$r = a;", "RootMissing at 1:16")
}

#[test]
fn the_least_place_is_told_and_there_the_least_number(rt: HostRuntime) -> Result<(), Fail> {
    let alloc = rt.alloc();
    expect(
        &rt,
        alloc,
        "$r = a <99999999999-99999999998>;",
        "RepeatOrder at 1:18",
    )?;
    expect(&rt, alloc, "$r = a <65536 /x/>;", "RepeatLarge at 1:18")?;
    expect(&rt, alloc, "$NULL = a;$NULL = a;", "Reserved at 1:11")?;
    expect(&rt, alloc, "$r = a <65536> <3-2>;", "Unexpected at 1:26")?;
    expect(&rt, alloc, "$r = (a <65536>) <3-2>;", "RepeatLarge at 1:19")?;
    expect(&rt, alloc, "root $s;$r = /x/ a;", "RootMissing at 1:16")?;
    expect(&rt, alloc, "$r = /x/ a;$r = a", "Unexpected at 1:28")
}

/// What a document is as a whole, worked out by hand: `[1 2]` is none or once, `<2->` is at least twice, a special rule by
/// its name, references at their places, a tag without a script where no tag format is declared.
const WHOLE: &str =
    "Doc { mode: Dtmf, root: Some(Text { utf8: \"r\" }), format: None, base: Some(Text { utf8: \"d/\" }), rules: Items { items: [Rule { place: Place { line: 1, column: 39 }, public: false, name: Text { utf8: \"s\" }, body: Token(Items { items: [Word { text: Text { utf8: \"1\" } }] }) }, Rule { place: Place { line: 1, column: 53 }, public: true, name: Text { utf8: \"r\" }, body: Seq(Items { items: [Rep { least: 0, most: Some(1), inner: Boxed { inner: Seq(Items { items: [Token(Items { items: [Word { text: Text { utf8: \"1\" } }] }), Token(Items { items: [Word { text: Text { utf8: \"2\" } }] })] }) } }, Rep { least: 2, most: None, inner: Boxed { inner: Alt(Items { items: [Null, Ref(Reference { place: Place { line: 1, column: 73 }, goal: Local(Text { utf8: \"s\" }) })] }) } }, Tag(TagNode { place: Place { line: 1, column: 82 }, text: Text { utf8: \"x\" }, script: None }), Ref(Reference { place: Place { line: 1, column: 86 }, goal: Named { uri: Text { utf8: \"b\" }, rule: Text { utf8: \"t\" } } }), Ref(Reference { place: Place { line: 1, column: 93 }, goal: Root { uri: Text { utf8: \"c\" } } }), Rep { least: 0, most: None, inner: Boxed { inner: Null } }] }) }] } }";

#[test]
fn a_document_is_read_whole(rt: HostRuntime) -> Result<(), Fail> {
    let alloc = rt.alloc();
    let text = Text::of(
        alloc,
        "#ABNF 1.0;mode dtmf;root $r;base <d/>;$s = 1;public $r = [1 2] ($NULL | $s) <2-> {x} $<b#t> $<c> ()<0->;",
    )?;
    let document = read_document(alloc, &text);
    assert!(&rt; document.is_ok());
    if let Ok(document) = document {
        assert_eq!(&rt; format!(in alloc; "{document:?}")?.as_str(), WHOLE);
    }
    Ok(())
}

/// The keys that a document imports under its key, one after another.
fn imported(alloc: Global, key: &str, rest: &str) -> Result<String, Fail> {
    references_can_be_resolved();
    let written = format!(in alloc; "#ABNF 1.0;{rest}")?;
    let text = Text::of(alloc, written.as_str())?;
    let document = read_document(alloc, &text)?;
    let key = Uri::read_key(alloc, &Text::of(alloc, key)?)?;
    let mut list = String::new(alloc);
    for found in &imports(alloc, &document, &key)? {
        list.push_str(found.as_str())?;
        list.push_str(" ")?;
    }
    Ok(list)
}

#[test]
fn each_key_is_imported_once_in_order(rt: HostRuntime) -> Result<(), Fail> {
    for (rest, want) in [
        (
            "$r = $<b> $<c#r> ($<b#s> | $<../d>) $r;",
            "http://e/x/b http://e/x/c http://e/d ",
        ),
        (
            "base <y/>;$r = $<b> $<c#r>;$s = $<b#s> $<../d>;",
            "http://e/x/y/b http://e/x/y/c http://e/x/d ",
        ),
        (
            "base <http://f/#g>;$r = [$<b>] $<a>;",
            "http://f/b http://f/a ",
        ),
        ("$r = $<a#r> x $<./a>;", "http://e/x/a "),
        ("$r = x;", ""),
    ] {
        let found = imported(rt.alloc(), "http://e/x/a", rest)?;
        assert_eq!(&rt; found.as_str(), want, "{rest:?}");
    }
    Ok(())
}
