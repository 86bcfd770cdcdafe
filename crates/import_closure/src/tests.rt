use crate::{closure, core_closure, is_keyed};
use grammar_tree::{DocSet, DocText};
use std::alloc::Global;
use std::process::Abort;
use std::test::Fail;
use vg_base::{DocIx, Text};

/// Adds a document under `http://e/` and its name.
fn stage(
    rt: &impl Abort,
    alloc: Global,
    set: &mut DocSet,
    name: &str,
    rules: &str,
) -> Result<(), Fail> {
    let key = format!(in alloc; "http://e/{name}")?;
    let text = format!(in alloc; "#ABNF 1.0;{rules}")?;
    let doc = DocText {
        key: Text::of(alloc, key.as_str())?,
        text: Text::of(alloc, text.as_str())?,
    };
    set.put(doc).expect(rt, "memory");
    Ok(())
}

fn listed(alloc: Global, docs: &[DocIx]) -> Result<String, Fail> {
    let mut list = String::new(alloc);
    for doc in docs {
        let place = doc.0;
        list.push_str(format!(in alloc; "{place} ")?.as_str())?;
    }
    Ok(list)
}

/// What is reached from one entry, by both calls.
fn expect(
    rt: &impl Abort,
    alloc: Global,
    set: &DocSet,
    entry: u32,
    want: &str,
) -> Result<(), Fail> {
    assert!(rt; is_keyed(alloc, set)?);
    assert!(rt; (entry as usize) < set.len());
    let entries = [DocIx(entry)];
    let found = closure(alloc, set, &entries)?;
    assert_eq!(rt; listed(alloc, &found)?.as_str(), want);
    let by_core = core_closure(alloc, set, &entries)?;
    assert_eq!(rt; listed(alloc, &by_core)?.as_str(), want);
    Ok(())
}

#[test]
fn documents_import_each_other(rt: HostRuntime) -> Result<(), Fail> {
    let alloc = rt.alloc();
    let mut set = DocSet::open(alloc);
    stage(
        &rt,
        alloc,
        &mut set,
        "a",
        "root $r;$r = x $<b>;public $s = z;",
    )?;
    stage(&rt, alloc, &mut set, "b", "root $r;$r = y | $<a#s>;")?;
    stage(&rt, alloc, &mut set, "c", "$r = $<./x/../c#r> $<nowhere>;")?;
    expect(&rt, alloc, &set, 0, "0 1 ")?;
    expect(&rt, alloc, &set, 1, "0 1 ")?;
    expect(&rt, alloc, &set, 2, "2 ")
}

#[test]
fn faulty_documents_import_nothing(rt: HostRuntime) -> Result<(), Fail> {
    let alloc = rt.alloc();
    let mut set = DocSet::open(alloc);
    stage(
        &rt,
        alloc,
        &mut set,
        "a",
        "base <http://e/sub/>;$r = $<../b>;",
    )?;
    stage(&rt, alloc, &mut set, "b", "$r = $<c>; $r = a;")?;
    stage(&rt, alloc, &mut set, "c", "$r = $<b>;")?;
    expect(&rt, alloc, &set, 0, "0 1 ")?;
    expect(&rt, alloc, &set, 2, "1 2 ")
}

/// Each document but the last refers to the next one, or the first one to all others.
fn many(rt: &impl Abort, alloc: Global, is_chain: bool) -> Result<DocSet, Fail> {
    let mut set = DocSet::open(alloc);
    let mut all = String::from_str(alloc, "$r = x")?;
    for i in 1..64u32 {
        all.push_str(format!(in alloc; " $<{i}>")?.as_str())?;
    }
    all.push_str(";")?;
    for i in 0..64u32 {
        let next = i + 1;
        let name = format!(in alloc; "{i}")?;
        let rules = if is_chain {
            format!(in alloc; "$r = x $<{next}>;")?
        } else if i == 0 {
            String::from_str(alloc, all.as_str())?
        } else {
            String::from_str(alloc, "$r = x;")?
        };
        stage(rt, alloc, &mut set, name.as_str(), rules.as_str())?;
    }
    Ok(set)
}

fn from(alloc: Global, first: u32) -> Result<String, Fail> {
    let mut list = String::new(alloc);
    for i in first..64u32 {
        list.push_str(format!(in alloc; "{i} ")?.as_str())?;
    }
    Ok(list)
}

#[test]
fn sixty_four_documents_are_reached(rt: HostRuntime) -> Result<(), Fail> {
    let alloc = rt.alloc();
    let chain = many(&rt, alloc, true)?;
    expect(&rt, alloc, &chain, 0, from(alloc, 0)?.as_str())?;
    expect(&rt, alloc, &chain, 60, from(alloc, 60)?.as_str())?;
    let star = many(&rt, alloc, false)?;
    expect(&rt, alloc, &star, 0, from(alloc, 0)?.as_str())?;
    expect(&rt, alloc, &star, 7, "7 ")
}
