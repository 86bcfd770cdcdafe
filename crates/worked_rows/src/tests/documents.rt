//! Documents of grammars: what is read of them, and the one place that is wrong.
use super::{Ground, characters};
use rule_reader::read_document;
use std::test::Fail;
use vg_base::Text;

/// How many rules a document has, or why it is none.
fn answer(rt: &impl Ground, text: &Text) -> Result<String, Fail> {
    match read_document(rt.alloc(), text) {
        Ok(document) => {
            let rules = document.rules.len();
            Ok(format!(in rt.alloc(); "{rules}")?)
        }
        Err(refused) => Ok(format!(in rt.alloc(); "{refused}")?),
    }
}

/// Each row is a text, and behind ` => ` the answer.
fn answers(rt: &impl Ground, rows: &str) -> Result<(), Fail> {
    for row in rows.lines() {
        let parts = row.split_once(" => ");
        assert!(rt; parts.is_some(), "{row}");
        if let Some((text, want)) = parts {
            let found = answer(rt, &characters(rt, text))?;
            assert_eq!(rt; found.as_str(), want, "{row}");
        }
    }
    Ok(())
}

const ONE_RULE_OR_NONE: &str = r#"#ABNF 1.0; => 0
#ABNF 1.0;$r = ()<0->; => 1
#ABNF 1.0 UTF-8;language en-US;mode voice;root $r;tag-format <semantics/1.0>;private $r = [a|b]<0-1 /0.5/>; => 1
#ABNF 1.0;$r = a<65535>; => 1
#ABNF 1.0;$r = $VOID | "star *" {x} | (/2/ a); => 1
#ABNF 1.0;$r = a;$s = $r $<> $<#r>; => 2"#;

const ONE_PLACE_IS_WRONG: &str = r#"#ABNF 2.0; => Version at 1:7
#ABNF 1.0 KOI8-R; => Encoding at 1:11
ABNF 1.0; => NoHeader at 1:1
#ABNF 1.0 => Unexpected at 1:10
#ABNF 1.0;$r = "a; => Unclosed at 1:16
#ABNF 1.0;$r = a.b$c.d; => BadCharacter at 1:21
#ABNF 1.0;$r = a<3-2>; => RepeatOrder at 1:17
#ABNF 1.0;$r = a<65536>; => RepeatLarge at 1:17
#ABNF 1.0;$r = ; => Unexpected at 1:16
#ABNF 1.0;$r = a => Unexpected at 1:17
#ABNF 1.0;$NULL = a; => Reserved at 1:11
#ABNF 1.0;root $q;$r = a; => RootMissing at 1:16
#ABNF 1.0;mode dtmf;$r = 5e; => BadKey at 1:26
#ABNF 2.0;$r = "a; => Version at 1:7
#ABNF 1.0;$r = a<3-2>;$s = "a; => Unclosed at 1:28
#ABNF 1.0;$r = a<3-2>;$s = ; => Unexpected at 1:28"#;

#[test]
fn documents_have_rules(host: HostRuntime) -> Result<(), Fail> {
    answers(&host, ONE_RULE_OR_NONE)
}

#[test]
fn documents_have_one_first_fault(host: HostRuntime) -> Result<(), Fail> {
    answers(&host, ONE_PLACE_IS_WRONG)
}

/// A header, so many of the one text, one text, and so many of another.
fn around(
    rt: &impl Ground,
    front: &str,
    count: u32,
    open: &str,
    close: &str,
) -> Result<Text, Fail> {
    let mut text = String::from_str(rt.alloc(), front)?;
    for _ in 0..count {
        text.push_str(open)?;
    }
    text.push_str("a")?;
    for _ in 0..count {
        text.push_str(close)?;
    }
    text.push_str(";")?;
    Ok(Text::from_string(text))
}

#[test]
fn brackets_are_sixty_four_deep_at_most(host: HostRuntime) -> Result<(), Fail> {
    let rt = &host;
    let deep = around(rt, "#ABNF 1.0;$r = ", 64, "(", ")")?;
    assert_eq!(rt; answer(rt, &deep)?.as_str(), "1");
    let deeper = around(rt, "#ABNF 1.0;$r = ", 65, "(", ")")?;
    assert_eq!(rt; answer(rt, &deeper)?.as_str(), "Deep at 1:80");
    Ok(())
}

#[test]
fn lexemes_are_as_many_as_they_may_be(host: HostRuntime) -> Result<(), Fail> {
    let rt = &host;
    let mut text = String::from_str(rt.alloc(), "#ABNF 1.0;")?;
    for _ in 0..65536u32 {
        text.push_str(";")?;
    }
    let many = Text::of(rt.alloc(), text.as_str())?;
    assert_eq!(rt; answer(rt, &many)?.as_str(), "Unexpected at 1:11");
    text.push_str(";")?;
    let more = Text::of(rt.alloc(), text.as_str())?;
    assert_eq!(rt; answer(rt, &more)?.as_str(), "Large at 1:65547");
    Ok(())
}
