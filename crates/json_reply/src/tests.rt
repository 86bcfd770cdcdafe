use crate::{BestResult, Body, FaultText, Refusal, Reply, reply_text};
use linker::{FaultKind, SetFault};
use script_value::Value;
use std::alloc::Global;
use std::test::Fail;
use tag_script::TagKind;
use uri_links::UriFault;
use vg_base::{Area, DocKind, Items, LinkKind, Memory, Place, Text, TextMap, VersionNo};

/// Whether a reply to this line is the object of these members, and for area 3 that with `area`
/// before them.
fn is_told(alloc: Global, line: u64, body: Body, members: &str) -> Result<bool, Memory> {
    let mut reply = Reply {
        line,
        area: Area(0),
        body,
    };
    let first = reply_text(alloc, &reply)?;
    let wanted = format!(in alloc; "{{{members}}}\n")?;
    reply.area = Area(3);
    let third = reply_text(alloc, &reply)?;
    let beside = format!(in alloc; "{{\"area\":3,{members}}}\n")?;
    Ok(first.as_str() == wanted.as_str() && third.as_str() == beside.as_str())
}

#[test]
fn replies_of_a_word(rt: HostRuntime) -> Result<(), Fail> {
    let alloc = rt.alloc();
    assert!(rt; is_told(alloc, 1, Body::Staged, r#""line":1,"reply":"staged""#)?);
    assert!(rt; is_told(alloc, 2, Body::Dropped, r#""line":2,"reply":"dropped""#)?);
    assert!(rt; is_told(alloc, 3, Body::Opened, r#""line":3,"reply":"opened""#)?);
    assert!(rt; is_told(alloc, 7, Body::Closed, r#""line":7,"reply":"closed""#)?);
    assert!(rt; is_told(alloc, 3, Body::Ran, r#""line":3,"reply":"ran""#)?);
    assert!(rt; is_told(alloc, 4, Body::Memory, r#""line":4,"reply":"memory""#)?);
    Ok(())
}

#[test]
fn replies_with_a_version(rt: HostRuntime) -> Result<(), Fail> {
    let alloc = rt.alloc();
    let version = VersionNo(1);
    let published = Body::Published {
        version,
        documents: 1,
    };
    let members = r#""documents":1,"line":2,"reply":"published","version":1"#;
    assert!(rt; is_told(alloc, 2, published, members)?);
    let members = r#""line":5,"reply":"activated","version":1"#;
    assert!(rt; is_told(alloc, 5, Body::Activated { version }, members)?);
    let version = VersionNo(18446744073709551615);
    let members = r#""line":6,"reply":"deactivated","version":18446744073709551615"#;
    assert!(rt; is_told(alloc, 6, Body::Deactivated { version }, members)?);
    Ok(())
}

#[test]
fn no_match_in_a_session_and_at_a_try(rt: HostRuntime) -> Result<(), Fail> {
    let alloc = rt.alloc();
    let version = VersionNo(2);
    let members = r#""gone":1,"line":10,"reply":"nomatch","version":2"#;
    let gone = Some(1);
    assert!(rt; is_told(alloc, 10, Body::NoMatch { version, gone }, members)?);
    let members = r#""line":6,"reply":"nomatch","version":2"#;
    let gone = None;
    assert!(rt; is_told(alloc, 6, Body::NoMatch { version, gone }, members)?);
    Ok(())
}

/// A match of the rule r.
fn matched(alloc: Global, version: u64, gone: Option<u32>, meant: Value) -> Result<Body, Memory> {
    Ok(Body::Match {
        version: VersionNo(version),
        uri: Text::of(alloc, "http://e/a")?,
        rule: Text::of(alloc, "r")?,
        result: meant,
        gone,
    })
}

#[test]
fn a_match_in_a_session_and_at_a_try(rt: HostRuntime) -> Result<(), Fail> {
    let alloc = rt.alloc();
    let said = Value::Str(Text::of(alloc, "yes")?);
    let members = "\"line\":4,\"reply\":\"match\",\"result\":\"yes\",\"rule\":\"r\",\
        \"uri\":\"http://e/a\",\"version\":1";
    assert!(rt; is_told(alloc, 4, matched(alloc, 1, None, said)?, members)?);
    let members = "\"gone\":0,\"line\":15,\"reply\":\"match\",\"result\":-3,\"rule\":\"r\",\
        \"uri\":\"http://e/a\",\"version\":3";
    assert!(rt;
        is_told(
            alloc,
            15,
            matched(alloc, 3, Some(0), Value::Number(-3))?,
            members
        )?
    );
    Ok(())
}

/// What the order of two pizzas means.
fn order(alloc: Global) -> Result<Value, Memory> {
    let mut toppings = Items::new(alloc);
    toppings.push(Value::Str(Text::of(alloc, "ham")?))?;
    toppings.push(Value::Str(Text::of(alloc, "red onions")?))?;
    let mut members = TextMap::new(alloc);
    members.set(Text::of(alloc, "total")?, Value::Number(18))?;
    members.set(Text::of(alloc, "size")?, Value::Str(Text::of(alloc, "L")?))?;
    members.set(Text::of(alloc, "toppings")?, Value::List(toppings))?;
    members.set(Text::of(alloc, "count")?, Value::Number(2))?;
    Ok(Value::Record(members))
}

#[test]
fn the_pizza_order(rt: HostRuntime) -> Result<(), Fail> {
    let alloc = rt.alloc();
    let body = Body::Match {
        version: VersionNo(1),
        uri: Text::of(alloc, "http://p/order.gram")?,
        rule: Text::of(alloc, "order")?,
        result: order(alloc)?,
        gone: Some(0),
    };
    let members = "\"gone\":0,\"line\":16,\"reply\":\"match\",\
        \"result\":{\"count\":2,\"size\":\"L\",\"toppings\":[\"ham\",\"red onions\"],\"total\":18},\
        \"rule\":\"order\",\"uri\":\"http://p/order.gram\",\"version\":1";
    assert!(rt; is_told(alloc, 16, body, members)?);
    Ok(())
}

#[test]
fn line_feeds_in_texts_are_escaped(rt: HostRuntime) -> Result<(), Fail> {
    let alloc = rt.alloc();
    let said = Value::Str(Text::of(alloc, "a\n\"b\"\u{1}é")?);
    let members = "\"line\":4,\"reply\":\"match\",\"result\":\"a\\n\\\"b\\\"\\u0001é\",\
        \"rule\":\"r\",\"uri\":\"http://e/a\",\"version\":1";
    assert!(rt; is_told(alloc, 4, matched(alloc, 1, None, said)?, members)?);
    Ok(())
}

/// The fault of a tag of the rule r.
fn tag_fault(alloc: Global, kind: TagKind) -> Result<BestResult, Memory> {
    Ok(BestResult::Fault(FaultText {
        uri: Text::of(alloc, "http://e/a")?,
        rule: Text::of(alloc, "r")?,
        kind,
    }))
}

fn best(alloc: Global, gone: Option<u32>, results: Items<BestResult>) -> Result<Body, Memory> {
    Ok(Body::Best {
        version: VersionNo(1),
        uri: Text::of(alloc, "http://e/a")?,
        rule: Text::of(alloc, "r")?,
        results,
        gone,
    })
}

#[test]
fn the_best_parses(rt: HostRuntime) -> Result<(), Fail> {
    let alloc = rt.alloc();
    let mut both = Items::new(alloc);
    both.push(BestResult::Given(Value::Str(Text::of(alloc, "a")?)))?;
    both.push(BestResult::Given(Value::Number(1)))?;
    let members = "\"line\":4,\"reply\":\"match\",\"results\":[{\"result\":\"a\"},{\"result\":1}],\
        \"rule\":\"r\",\"uri\":\"http://e/a\",\"version\":1";
    assert!(rt; is_told(alloc, 4, best(alloc, None, both)?, members)?);
    Ok(())
}

#[test]
fn a_best_parse_that_faults(rt: HostRuntime) -> Result<(), Fail> {
    let alloc = rt.alloc();
    let mut both = Items::new(alloc);
    both.push(BestResult::Given(Value::Str(Text::of(alloc, "a")?)))?;
    both.push(tag_fault(alloc, TagKind::Fraction)?)?;
    let members = "\"gone\":2,\"line\":4,\"reply\":\"match\",\"results\":[{\"result\":\"a\"},\
        {\"fault\":\"Fraction\",\"rule\":\"r\",\"uri\":\"http://e/a\"}],\
        \"rule\":\"r\",\"uri\":\"http://e/a\",\"version\":1";
    assert!(rt; is_told(alloc, 4, best(alloc, Some(2), both)?, members)?);
    Ok(())
}

#[test]
fn a_tag_that_faults(rt: HostRuntime) -> Result<(), Fail> {
    let alloc = rt.alloc();
    let body = Body::TagFault {
        version: VersionNo(1),
        uri: Text::of(alloc, "http://e/a")?,
        rule: Text::of(alloc, "r")?,
        kind: TagKind::Range,
        gone: None,
    };
    let members = "\"fault\":\"Range\",\"line\":4,\"reply\":\"tagfault\",\"rule\":\"r\",\
        \"uri\":\"http://e/a\",\"version\":1";
    assert!(rt; is_told(alloc, 4, body, members)?);
    Ok(())
}

fn refused(refusal: Refusal, cause: Option<UriFault>, version: Option<VersionNo>) -> Body {
    Body::Refused {
        refusal,
        cause,
        version,
    }
}

#[test]
fn refusals(rt: HostRuntime) -> Result<(), Fail> {
    let alloc = rt.alloc();
    let long = refused(Refusal::LineLong, None, None);
    let members = r#""line":1,"refusal":"LineLong","reply":"refused""#;
    assert!(rt; is_told(alloc, 1, long, members)?);
    let before_publish = refused(Refusal::NoDocument, None, Some(VersionNo(0)));
    let members = r#""line":1,"refusal":"NoDocument","reply":"refused","version":0"#;
    assert!(rt; is_told(alloc, 1, before_publish, members)?);
    let relative = refused(Refusal::NotUri, Some(UriFault::NotAbsolute), None);
    let members = r#""cause":"NotAbsolute","line":1,"refusal":"NotUri","reply":"refused""#;
    assert!(rt; is_told(alloc, 1, relative, members)?);
    let no_session = refused(Refusal::NoSession, None, None);
    let members = r#""line":5,"refusal":"NoSession","reply":"refused""#;
    assert!(rt; is_told(alloc, 5, no_session, members)?);
    Ok(())
}

fn fault_at(alloc: Global, line: u64, column: u64, kind: FaultKind) -> Result<SetFault, Memory> {
    Ok(SetFault {
        uri: Text::of(alloc, "http://e/a")?,
        place: Place { line, column },
        kind,
    })
}

#[test]
fn the_fault_of_a_publish(rt: HostRuntime) -> Result<(), Fail> {
    let alloc = rt.alloc();
    let mut first = Items::new(alloc);
    first.push(fault_at(alloc, 1, 24, FaultKind::Link(LinkKind::NoDocument))?)?;
    let members = "\"count\":1,\
        \"faults\":[{\"column\":24,\"fault\":\"NoDocument\",\"line\":1,\"uri\":\"http://e/a\"}],\
        \"line\":2,\"refusal\":\"Refused\",\"reply\":\"refused\"";
    assert!(rt; is_told(alloc, 2, Body::Faulty { first, count: 1 }, members)?);
    Ok(())
}

#[test]
fn some_of_the_faults_of_a_publish(rt: HostRuntime) -> Result<(), Fail> {
    let alloc = rt.alloc();
    let mut first = Items::new(alloc);
    first.push(fault_at(alloc, 0, 0, FaultKind::Link(LinkKind::NoDocument))?)?;
    first.push(fault_at(alloc, 2, 5, FaultKind::Doc(DocKind::Unclosed))?)?;
    let members = "\"count\":70,\
        \"faults\":[{\"column\":0,\"fault\":\"NoDocument\",\"line\":0,\"uri\":\"http://e/a\"},\
        {\"column\":5,\"fault\":\"Unclosed\",\"line\":2,\"uri\":\"http://e/a\"}],\
        \"line\":9,\"refusal\":\"Refused\",\"reply\":\"refused\"";
    assert!(rt; is_told(alloc, 9, Body::Faulty { first, count: 70 }, members)?);
    Ok(())
}
