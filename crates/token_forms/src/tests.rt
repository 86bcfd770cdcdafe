use crate::{keys_of, words_of, words_of_all};
use std::alloc::{AllocError, Global};
use std::test::Fail;
use vg_base::{Items, Refused, Text, Word};

fn joined(alloc: Global, words: &Items<Word>) -> Result<String, AllocError> {
    let mut line = String::new(alloc);
    for word in words.as_slice() {
        line.push_str(word.text().as_str())?;
        line.push('|')?;
    }
    Ok(line)
}

#[test]
fn words_stand_between_white_space(rt: HostRuntime) -> Result<(), Fail> {
    let rows = [
        ("San  Francisco", "San|Francisco|"),
        ("San Francisco", "San|Francisco|"),
        ("\tSan\r\nFrancisco ", "San|Francisco|"),
        ("São\u{a0}Paulo", "São\u{a0}Paulo|"),
        (" \t", ""),
        ("", ""),
    ];
    for (text, want) in rows {
        let words = words_of(rt.alloc(), &Text::of(rt.alloc(), text)?)?;
        let line = joined(rt.alloc(), &words)?;
        assert_eq!(rt; line.as_str(), want, "words of {text:?}");
    }
    Ok(())
}

#[test]
fn keys_are_spelled(rt: HostRuntime) -> Result<(), Fail> {
    let rows = [
        ("1pound", "1|#|"),
        ("1#", "1|#|"),
        ("1 star", "1|*|"),
        ("starstar pound*", "*|*|#|*|"),
        ("0123456789*#ABCD", "0|1|2|3|4|5|6|7|8|9|*|#|A|B|C|D|"),
        ("\t", ""),
    ];
    for (text, want) in rows {
        let keys = keys_of(rt.alloc(), &Text::of(rt.alloc(), text)?)?;
        let line = joined(rt.alloc(), &keys)?;
        assert_eq!(rt; line.as_str(), want, "keys of {text:?}");
    }
    Ok(())
}

#[test]
fn bad_keys_are_placed_by_characters(rt: HostRuntime) -> Result<(), Fail> {
    let rows = [
        ("1x", 1),
        ("1 sta", 2),
        ("star E", 5),
        ("12a", 2),
        ("é1", 0),
        ("1\u{a0}2", 1),
        ("3 \u{1f4de}", 2),
    ];
    for (text, want) in rows {
        match keys_of(rt.alloc(), &Text::of(rt.alloc(), text)?) {
            Err(Refused::Fault(bad)) => assert_eq!(rt; bad.at, want, "keys of {text:?}"),
            _ => assert!(rt; false, "keys of {text:?}"),
        }
    }
    Ok(())
}

#[test]
fn words_of_several_texts_follow_one_another(rt: HostRuntime) -> Result<(), Fail> {
    let alloc = rt.alloc();
    let texts = vec![in alloc;
        Text::of(alloc, " two big")?,
        Text::of(alloc, "")?,
        Text::of(alloc, "pizzas")?,
    ]?;
    let words = words_of_all(alloc, texts.as_slice())?;
    let line = joined(alloc, &words)?;
    assert_eq!(rt; line.as_str(), "two|big|pizzas|");
    Ok(())
}
