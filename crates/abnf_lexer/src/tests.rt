ghost use Rattle.std.specs.Prelude.{All};
ghost use Rattle.abnf_lexer.specs.Lexing.{IsWithin};

use crate::{LexKind, Most, Spanned, inside_of, lex, read_repeat};
use std::alloc::{AllocError, Global};
use std::process::Abort;
use std::test::Fail;
use vg_base::{Items, Text};

/// Each lexeme by its kind, its place and its characters.
fn described(alloc: Global, text: &Text, lexemes: &Items<Spanned>) -> Result<String, AllocError>
    requires { All (IsWithin text.now) lexemes.now }
{
    let mut line = String::new(alloc);
    for lexeme in lexemes.as_slice() {
        let slice = text.slice(lexeme.from as usize, lexeme.to as usize);
        let place = lexeme.place;
        let one = format!(in alloc;
            "{:?} {}:{} {slice}|",
            lexeme.kind, place.line, place.column
        )?;
        line.push_str(&one)?;
    }
    Ok(line)
}

/// The lexemes of a text, or why it is refused.
fn answer(alloc: Global, text: &Text) -> Result<String, AllocError> {
    match lex(alloc, text) {
        Ok(lexemes) => described(alloc, text, &lexemes),
        Err(refused) => format!(in alloc; "{refused}"),
    }
}

fn expect(rt: &impl Abort, alloc: Global, text: &str, want: &str) -> Result<(), Fail> {
    let found = answer(alloc, &Text::of(alloc, text)?)?;
    assert_eq!(rt; found.as_str(), want, "{text:?}");
    Ok(())
}

#[test]
fn headers(rt: HostRuntime) -> Result<(), Fail> {
    let alloc = rt.alloc();
    expect(&rt, alloc, "#ABNF 1.0;", "")?;
    expect(&rt, alloc, "\u{FEFF}#ABNF\t 1.0 uTf-8\t;a", "Bare 1:19 a|")?;
    expect(&rt, alloc, "", "NoHeader at 1:1")?;
    expect(&rt, alloc, "#ABNF;", "NoHeader at 1:1")?;
    expect(&rt, alloc, "#ABNF 2.0;", "Version at 1:7")?;
    expect(&rt, alloc, "#ABNF  ;", "Version at 1:8")?;
    expect(&rt, alloc, "#ABNF 1.0 KOI8-R;", "Encoding at 1:11")?;
    expect(&rt, alloc, "#ABNF 1.0  ", "Unexpected at 1:12")?;
    expect(&rt, alloc, "#ABNF 1.0\n;", "Unexpected at 1:10")
}

#[test]
fn each_kind(rt: HostRuntime) -> Result<(), Fail> {
    let alloc = rt.alloc();
    expect(
        &rt,
        alloc,
        "#ABNF 1.0;é.-1 // c\r\"a b\"",
        "Bare 1:11 é.-1|Quoted 2:1 \"a b\"|",
    )?;
    expect(
        &rt,
        alloc,
        "#ABNF 1.0;$a_1$<u>~<t>$<>~",
        "Name 1:11 $a_1|UriRef 1:15 $<u>~<t>|UriRef 1:23 $<>|Bare 1:26 ~|",
    )?;
    expect(
        &rt,
        alloc,
        "#ABNF 1.0;<a~<b>~<c>/0.1/",
        "Angle 1:11 <a~<b>~<c>|Weight 1:21 /0.1/|",
    )?;
    expect(
        &rt,
        alloc,
        "#ABNF 1.0;!en-US{a!}{!{}}!}",
        "Language 1:11 !en-US|Tag 1:17 {a!}|Tag 1:21 {!{}}!}|",
    )?;
    expect(
        &rt,
        alloc,
        "#ABNF 1.0;/**/;=|/*/*/()[]",
        "Sign 1:15 ;|Sign 1:16 =|Sign 1:17 ||Sign 1:23 (|Sign 1:24 )|Sign 1:25 [|Sign 1:26 ]|",
    )?;
    expect(
        &rt,
        alloc,
        "#ABNF 1.0;\r\na\nb\r\u{FEFF}",
        "Bare 2:1 a|Bare 3:1 b|Bare 4:1 \u{FEFF}|",
    )?;
    expect(&rt, alloc, "#ABNF 1.0;a//", "Bare 1:11 a|")
}

#[test]
fn first_faults(rt: HostRuntime) -> Result<(), Fail> {
    let alloc = rt.alloc();
    expect(&rt, alloc, "#ABNF 1.0;a.b $c.d", "BadCharacter at 1:17")?;
    expect(&rt, alloc, "#ABNF 1.0;$r = \"a;", "Unclosed at 1:16")?;
    expect(&rt, alloc, "#ABNF 1.0;!en- a", "BadCharacter at 1:11")?;
    expect(&rt, alloc, "#ABNF 1.0;!languages", "BadCharacter at 1:11")?;
    expect(&rt, alloc, "#ABNF 1.0;<a>~<b", "Unclosed at 1:15")?;
    expect(&rt, alloc, "#ABNF 1.0;a /", "Unclosed at 1:13")?;
    expect(&rt, alloc, "#ABNF 1.0;/*/", "Unclosed at 1:11")?;
    expect(&rt, alloc, "#ABNF 1.0;{!{ } !}", "Unclosed at 1:11")?;
    expect(&rt, alloc, "#ABNF 1.0;$<", "Unclosed at 1:11")?;
    expect(&rt, alloc, "#ABNF 1.0;$", "BadCharacter at 1:11")?;
    expect(&rt, alloc, "#ABNF 1.0;a > }", "BadCharacter at 1:13")?;
    expect(&rt, alloc, "#ABNF 1.0;/*\u{1}*/", "BadCharacter at 1:13")?;
    expect(&rt, alloc, "#ABNF 1.0;\"\u{1}\" $", "BadCharacter at 1:12")
}

fn with_many(alloc: Global, text: &str, more: &str, count: u32) -> Result<String, AllocError> {
    let mut long = String::from_str(alloc, text)?;
    for _turn in 0..count {
        long.push_str(more)?;
    }
    Ok(long)
}

#[test]
fn limits(rt: HostRuntime) -> Result<(), Fail> {
    let alloc = rt.alloc();
    let deep = with_many(alloc, "#ABNF 1.0;$r = ", "(", 65)?;
    expect(&rt, alloc, &deep, "Deep at 1:80")?;
    let large = with_many(alloc, "#ABNF 1.0;", ";", 65537)?;
    expect(&rt, alloc, &large, "Large at 1:65547")?;
    let wide = with_many(alloc, "#ABNF 1.0;)", "([])", 16383)?;
    expect_some(&rt, alloc, &wide, 65533)?;
    let most = with_many(alloc, "#ABNF 1.0;", ";", 65536)?;
    expect_some(&rt, alloc, &most, 65536)
}

fn expect_some(rt: &impl Abort, alloc: Global, text: &str, count: u64) -> Result<(), Fail> {
    let lexemes = lex(alloc, &Text::of(alloc, text)?)?;
    assert_eq!(rt; lexemes.len() as u64, count, "how many lexemes");
    Ok(())
}

/// The parts of a repeat as they are written, between strokes.
fn parts(alloc: Global, slice: &[char]) -> Result<String, AllocError> {
    let Some(repeat) = read_repeat(slice) else {
        return String::from_str(alloc, "none");
    };
    let least = written(alloc, repeat.least)?;
    let most = match repeat.most {
        Most::Same => String::from_str(alloc, "same")?,
        Most::Endless => String::from_str(alloc, "endless")?,
        Most::UpTo(number) => written(alloc, number)?,
    };
    let chance = match repeat.chance {
        Some(chance) => written(alloc, chance)?,
        None => String::from_str(alloc, "no")?,
    };
    format!(in alloc; "{least}|{most}|{chance}")
}

fn written(alloc: Global, characters: &[char]) -> Result<String, AllocError> {
    let mut text = String::new(alloc);
    for c in characters {
        text.push(*c)?;
    }
    Ok(text)
}

const REPEATS: &str = "<2>:2|same|no
<0-1>:0|1|no
< 1 - 20 / 0.5 / >:1|20| 0.5 
<3-/x/>:3|endless|x
<12-  >:12|endless|no
<1-2-3>:none
<-1>:none
<1 2>:none
<1/2>:none
<a>:none
<1>~<a>:none
<>:none";

#[test]
fn repeats(rt: HostRuntime) -> Result<(), Fail> {
    let alloc = rt.alloc();
    for row in REPEATS.lines() {
        let Some((slice, want)) = row.split_once(':') else {
            continue;
        };
        let characters = Text::of(alloc, slice)?.characters(alloc)?;
        let found = parts(alloc, characters.as_slice())?;
        assert_eq!(rt; found.as_str(), want, "{slice:?}");
    }
    Ok(())
}

/// The inside of a slice of this kind, and its media type behind a stroke.
fn inside(alloc: Global, kind: LexKind, slice: &[char]) -> Result<String, AllocError> {
    let Some(inside) = inside_of(kind, slice) else {
        return String::from_str(alloc, "none");
    };
    let characters = written(alloc, inside.characters)?;
    match inside.media {
        Some(media) => {
            let media = written(alloc, media)?;
            format!(in alloc; "{characters}|{media}")
        }
        None => Ok(characters),
    }
}

fn expect_inside(
    rt: &impl Abort,
    alloc: Global,
    kind: LexKind,
    slice: &str,
    want: &str,
) -> Result<(), Fail> {
    let characters = Text::of(alloc, slice)?.characters(alloc)?;
    let found = inside(alloc, kind, characters.as_slice())?;
    assert_eq!(rt; found.as_str(), want, "{slice:?}");
    Ok(())
}

#[test]
fn insides(rt: HostRuntime) -> Result<(), Fail> {
    let alloc = rt.alloc();
    expect_inside(&rt, alloc, LexKind::Bare, "a-1", "a-1")?;
    expect_inside(&rt, alloc, LexKind::Quoted, "\"a b\"", "a b")?;
    expect_inside(&rt, alloc, LexKind::Name, "$a_1", "a_1")?;
    expect_inside(&rt, alloc, LexKind::UriRef, "$<u#r>~<t>", "u#r|t")?;
    expect_inside(&rt, alloc, LexKind::Angle, "<>", "")?;
    expect_inside(&rt, alloc, LexKind::Weight, "/0.1/", "0.1")?;
    expect_inside(&rt, alloc, LexKind::Language, "!en-US", "en-US")?;
    expect_inside(&rt, alloc, LexKind::Tag, "{!{}}!}", "}")?;
    expect_inside(&rt, alloc, LexKind::Tag, "{ a }", " a ")?;
    expect_inside(&rt, alloc, LexKind::Quoted, "\"a\"b\"", "none")
}
