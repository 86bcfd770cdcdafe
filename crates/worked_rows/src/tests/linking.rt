//! Documents that are linked. A row has entries, behind `<- ` the staged documents, and behind ` => ` how many documents the version has, or the faults.
//! A document is a name and its text, without `#ABNF 1.0;root $r;` where it begins with a rule; it stands under `http://e/` and the name.
mod finding;
mod limits;
mod readings;

use super::{Ground, characters};
use grammar_tree::{DocSet, DocText};
use import_closure::is_keyed;
use linker::{Linking, SetFault, link};
use readings::readings;
use std::test::Fail;
use vg_base::{Text, VersionNo};

const PLACE: &str = "http://e/";

fn key_of(rt: &impl Ground, name: &str) -> Text {
    let mut key = characters(rt, PLACE);
    key.push_str(name).expect(rt, "memory");
    key
}

fn text_of(rt: &impl Ground, text: &str) -> Text {
    let head = if text.starts_with("$") {
        "#ABNF 1.0;root $r;"
    } else {
        ""
    };
    let mut whole = characters(rt, head);
    whole.push_str(text).expect(rt, "memory");
    whole
}

/// The set of these documents, between which ` & ` stands.
fn staged(rt: &impl Ground, docs: &str) -> DocSet {
    let mut set = DocSet::open(rt.alloc());
    for doc in docs.split(" & ") {
        let parts = doc.split_once(" ");
        assert!(rt; parts.is_some(), "{doc}");
        if let Some((name, text)) = parts {
            let doc = DocText {
                key: key_of(rt, name),
                text: text_of(rt, text),
            };
            set.put(doc).expect(rt, "memory");
        }
    }
    set
}

fn keys_of(rt: &impl Ground, names: &str) -> Vec<Text> {
    let mut keys = Vec::new(rt.alloc());
    for name in names.split_whitespace() {
        keys.push(key_of(rt, name)).expect(rt, "memory");
    }
    keys
}

/// What a publish of these documents for these entries gives.
fn linked(rt: &impl Ground, docs: &str, entries: &str) -> Result<Linking, Fail> {
    let set = staged(rt, docs);
    let entries = keys_of(rt, entries);
    assert!(rt; is_keyed(rt.alloc(), &set)?);
    let docs = readings(rt.alloc(), &set, &entries)?;
    let linking = link(rt.alloc(), &set, docs, &entries, VersionNo(1))?;
    Ok(linking)
}

/// A fault as its document's name, its kind and its place.
fn one(rt: &impl Ground, fault: &SetFault) -> Result<String, Fail> {
    let name = fault.uri.as_str().strip_prefix(PLACE).unwrap_or("");
    let kind = fault.kind.name();
    let line = fault.place.line;
    let column = fault.place.column;
    Ok(format!(in rt.alloc(); "{name} {kind} {line}:{column}")?)
}

/// The faults that are told, and how many there are where that are more.
fn told(rt: &impl Ground, first: &[SetFault], count: u64) -> Result<String, Fail> {
    let mut line = String::new(rt.alloc());
    for fault in first {
        if !line.is_empty() {
            line.push_str(", ")?;
        }
        line.push_str(one(rt, fault)?.as_str())?;
    }
    if count != first.len() as u64 {
        line.push_str(format!(in rt.alloc(); " of {count}")?.as_str())?;
    }
    Ok(line)
}

fn answer(rt: &impl Ground, docs: &str, entries: &str) -> Result<String, Fail> {
    match linked(rt, docs, entries)? {
        Linking::Sound(version) => {
            assert_eq!(rt; version.number(), VersionNo(1));
            let count = version.docs().len();
            Ok(format!(in rt.alloc(); "{count} documents")?)
        }
        Linking::Faulty { first, count } => told(rt, first.as_slice(), count),
    }
}

fn answers(rt: &impl Ground, rows: &str) -> Result<(), Fail> {
    for row in rows.lines() {
        let parts = row.split_once(" => ");
        assert!(rt; parts.is_some(), "{row}");
        if let Some((publish, want)) = parts {
            let parts = publish.split_once("<- ");
            assert!(rt; parts.is_some(), "{row}");
            if let Some((entries, docs)) = parts {
                let found = answer(rt, docs, entries)?;
                assert_eq!(rt; found.as_str(), want, "{row}");
            }
        }
    }
    Ok(())
}

const RULES_OF_ONE_DOCUMENT: &str = r#"a <- a $r = ([x] $r) <1> | y; => a SelfDerive 1:19
a <- a $r = $a; $a = $a | x; => a SelfDerive 1:28
a <- a $r = $r x | x; => 1 documents
a <- a $r = a<65535>; => 1 documents
a <- a $r = a<65535> b; => a NodesOver 1:19
a <- a $r = $r | a<65535> b; $s = y; $t = $t; => a SelfDerive 1:19, a NodesOver 1:19, a SelfDerive 1:49"#;

const REFERENCES: &str = r#"a <- a $r = $<c>; => a NoDocument 1:24
a <- a $r = $<c>; & c $r = x; => 2 documents
a <- a $r = $q; => a NoRule 1:24
a <- a $r = $<b#q>; & b #ABNF 1.0;$p = x; => a NoRule 1:24
a <- a $r = $<b#p>; & b #ABNF 1.0;$p = x; => a NotPublic 1:24
a <- a $r = $<b>; & b #ABNF 1.0;$p = x; => a NoRoot 1:24
a <- a $r = $<b#q>; & b #ABNF 1.0;mode dtmf;$p = 1; => a ModeDiffers 1:24
a <- a $r = $<a#s>; $s = x; => 1 documents
a <- a $r = x $<b>;public $s = z; & b $r = y | $<a#s>; => 2 documents"#;

const FAULTY_DOCUMENTS: &str = r#"a <- a $r = x; & bad hello => 1 documents
bad <- a $r = x; & bad hello => bad NoHeader 1:1
a <- a $r = $<bad>; & bad hello => bad NoHeader 1:1
bad q <- bad hello => q NoDocument 0:0, bad NoHeader 1:1"#;

const ENTRIES: &str = r#"q q <- a $r = x; => q NoDocument 0:0
 <- a $r = x; => 0 documents"#;

#[test]
fn documents_are_linked(host: HostRuntime) -> Result<(), Fail> {
    answers(&host, RULES_OF_ONE_DOCUMENT)?;
    answers(&host, REFERENCES)?;
    answers(&host, FAULTY_DOCUMENTS)?;
    answers(&host, ENTRIES)
}
