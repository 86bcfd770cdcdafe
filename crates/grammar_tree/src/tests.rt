use crate::{
    Doc, DocSet, DocText, Expansion, Goal, Linked, LinkedRule, Node, ParseTree, ReadDoc, Reference,
    Rule, TagNode, compare, is_same, size,
};
use sqlite_items::{Boxed, Items};
use std::alloc::Global;
use std::cmp::Ordering;
use std::process::Abort;
use std::test::Fail;
use vg_base::{DocIx, Expr, Memory, Mode, NodeIx, Place, RuleIx, Script, Stmt, Text, Word};

const PLACE: Place = Place {
    line: 1,
    column: 11,
};

fn words(alloc: Global, text: &str) -> Result<Items<Word>, Memory> {
    let mut words = Items::new(alloc);
    if let Some(word) = Word::read(Text::of(alloc, text)?) {
        words.push(word)?;
    }
    Ok(words)
}

fn token(alloc: Global) -> Result<Expansion, Memory> {
    Ok(Expansion::Token(words(alloc, "a")?))
}

fn repeat(
    alloc: Global,
    least: u32,
    most: Option<u32>,
    inner: Expansion,
) -> Result<Expansion, Memory> {
    Ok(Expansion::Rep {
        least,
        most,
        inner: Boxed::new(alloc, inner)?,
    })
}

fn with_token(alloc: Global, first: Expansion) -> Result<Items<Expansion>, Memory> {
    let mut parts = Items::new(alloc);
    parts.push(first)?;
    parts.push(token(alloc)?)?;
    Ok(parts)
}

fn expect_size(rt: &impl Abort, expansion: Expansion, expected: u64) {
    assert_eq!(rt; size(&expansion), expected);
}

#[test]
fn sizes_multiply_repeats_out(rt: HostRuntime) -> Result<(), Fail> {
    let alloc = rt.alloc();
    expect_size(&rt, token(alloc)?, 1);
    expect_size(&rt, repeat(alloc, 0, None, Expansion::Null)?, 2);
    expect_size(
        &rt,
        repeat(
            alloc,
            2,
            Some(2),
            repeat(alloc, 0, Some(1), Expansion::Null)?,
        )?,
        5,
    );
    expect_size(
        &rt,
        repeat(alloc, 65_535, Some(65_535), Expansion::Null)?,
        65_536,
    );
    Ok(())
}

#[test]
fn sizes_stop_past_the_largest(rt: HostRuntime) -> Result<(), Fail> {
    let alloc = rt.alloc();
    let largest = repeat(alloc, 65_535, Some(65_535), Expansion::Null)?;
    expect_size(&rt, Expansion::Seq(with_token(alloc, largest)?), 65_537);
    expect_size(&rt, repeat(alloc, 65_535, None, Expansion::Null)?, 65_537);
    Ok(())
}

fn tag(alloc: Global) -> Result<Expansion, Memory> {
    let mut body = Items::new(alloc);
    body.push(Stmt::Plain(Expr::Number(1)))?;
    Ok(Expansion::Tag(TagNode {
        place: PLACE,
        text: Text::of(alloc, "1")?,
        script: Some(Script { body }),
    }))
}

fn reference(alloc: Global) -> Result<Expansion, Memory> {
    Ok(Expansion::Ref(Reference {
        place: PLACE,
        goal: Goal::Root {
            uri: Text::of(alloc, "b")?,
        },
    }))
}

fn body(alloc: Global) -> Result<Expansion, Memory> {
    let mut parts = with_token(alloc, tag(alloc)?)?;
    parts.push(reference(alloc)?)?;
    Ok(Expansion::Seq(parts))
}

fn rules(alloc: Global) -> Result<Items<Rule>, Memory> {
    let mut rules = Items::new(alloc);
    rules.push(Rule {
        place: PLACE,
        public: false,
        name: Text::of(alloc, "r")?,
        body: body(alloc)?,
    })?;
    Ok(rules)
}

fn document(alloc: Global) -> Result<Doc, Memory> {
    Ok(Doc {
        mode: Mode::Dtmf,
        root: Some(Text::of(alloc, "r")?),
        format: None,
        base: None,
        rules: rules(alloc)?,
    })
}

#[test]
fn a_document_is_copied(rt: HostRuntime) -> Result<(), Fail> {
    let copy = ReadDoc::Good(document(rt.alloc())?).copy(rt.alloc())?;
    let ReadDoc::Good(doc) = &copy else {
        return Err(Fail::from("a document is a document"));
    };
    assert!(rt; doc.mode == Mode::Dtmf);
    let [rule] = doc.rules.as_slice() else {
        return Err(Fail::from("one rule is one"));
    };
    assert_eq!(rt; rule.name.as_str(), "r");
    assert!(rt; matches!(rule.body, Expansion::Seq(_)));
    Ok(())
}

fn taken(alloc: Global, taken: u32) -> Result<ParseTree, Memory> {
    Ok(ParseTree::Alt {
        taken,
        inner: Boxed::new(alloc, ParseTree::Null)?,
    })
}

fn turns(alloc: Global, count: u32) -> Result<ParseTree, Memory> {
    let mut turns = Items::new(alloc);
    for _ in 0..count {
        turns.push(ParseTree::Token(words(alloc, "a")?))?;
    }
    Ok(ParseTree::Rep(turns))
}

fn after_rule(alloc: Global, first: ParseTree, second: ParseTree) -> Result<ParseTree, Memory> {
    let mut parts = Items::new(alloc);
    parts.push(ParseTree::Rule {
        rule: RuleIx(0),
        inner: Boxed::new(alloc, first)?,
    })?;
    parts.push(second)?;
    Ok(ParseTree::Seq(parts))
}

fn expect_first(rt: &impl Abort, one: ParseTree, other: ParseTree) {
    assert!(rt; compare(&one, &other) == Ordering::Less);
    assert!(rt; compare(&other, &one) == Ordering::Greater);
}

#[test]
fn a_tree_is_the_same_as_its_copy(rt: HostRuntime) -> Result<(), Fail> {
    let tree = after_rule(rt.alloc(), turns(rt.alloc(), 2)?, taken(rt.alloc(), 1)?)?;
    let copy = tree.copy(rt.alloc())?;
    assert!(rt; compare(&tree, &copy) == Ordering::Equal);
    assert!(rt; is_same(&tree, &copy) && !is_same(&tree, &ParseTree::Null));
    Ok(())
}

#[test]
fn earlier_choices_come_first(rt: HostRuntime) -> Result<(), Fail> {
    let alloc = rt.alloc();
    expect_first(&rt, taken(alloc, 0)?, taken(alloc, 1)?);
    expect_first(&rt, turns(alloc, 2)?, turns(alloc, 1)?);
    expect_first(
        &rt,
        ParseTree::Garbage(Items::new(alloc)),
        ParseTree::Garbage(words(alloc, "a")?),
    );
    Ok(())
}

#[test]
fn linked_rules_can_be_made(rt: HostRuntime) -> Result<(), Fail> {
    let mut nodes = Items::new(rt.alloc());
    nodes.push(Node::Null)?;
    let mut rules = Items::new(rt.alloc());
    rules.push(LinkedRule {
        doc: DocIx(0),
        name: Text::of(rt.alloc(), "r")?,
        public: true,
        body: NodeIx(0),
    })?;
    let linked = Linked::new(nodes, rules);
    assert!(rt; matches!(linked.node(linked.rule(RuleIx(0)).body), Node::Null));
    Ok(())
}

fn put(set: &mut DocSet, alloc: Global, key: &str, text: &str) -> Result<Option<DocText>, Memory> {
    let doc = DocText {
        key: Text::of(alloc, key)?,
        text: Text::of(alloc, text)?,
    };
    Ok(set.put(doc)?)
}

#[test]
fn a_standing_key_keeps_its_place(rt: HostRuntime) -> Result<(), Fail> {
    let mut set = DocSet::open(rt.alloc());
    put(&mut set, rt.alloc(), "a", "1")?;
    put(&mut set, rt.alloc(), "b", "2")?;
    let former = put(&mut set, rt.alloc(), "a", "3")?;
    assert!(rt; former.is_some());
    let docs = set.into_docs();
    let [first, second] = docs.as_slice() else {
        return Err(Fail::from("two keys are two documents"));
    };
    assert_eq!(rt; first.text.as_str(), "3");
    assert_eq!(rt; second.text.as_str(), "2");
    Ok(())
}

#[test]
fn a_dropped_key_is_found_no_more(rt: HostRuntime) -> Result<(), Fail> {
    let mut set = DocSet::open(rt.alloc());
    put(&mut set, rt.alloc(), "a", "1")?;
    let key = Text::of(rt.alloc(), "a")?;
    assert!(rt; set.find(&key).is_some());
    assert!(rt; set.remove(&key).is_some());
    assert!(rt; set.find(&key).is_none() && set.is_empty());
    Ok(())
}
