//! Many faults, of which the first are told, and many rules.
use super::super::Ground;
use super::answer;
use std::test::Fail;

/// Adds the fault to those that are told.
fn tell(rt: &impl Ground, want: &mut String, kind: &str, column: usize) -> Result<(), Fail> {
    if !want.is_empty() {
        want.push_str(", ")?;
    }
    want.push_str(format!(in rt.alloc(); "a {kind} 1:{column}")?.as_str())?;
    Ok(())
}

#[test]
fn the_first_sixty_four_faults_are_told(host: HostRuntime) -> Result<(), Fail> {
    let rt = &host;
    let mut doc = String::from_str(rt.alloc(), "a $r =")?;
    let mut want = String::new(rt.alloc());
    for i in 0..100usize {
        doc.push_str(" $q")?;
        if i < 64 {
            tell(rt, &mut want, "NoRule", 24 + 3 * i)?;
        }
    }
    doc.push_str(";")?;
    want.push_str(" of 100")?;
    let found = answer(rt, doc.as_str(), "a")?;
    assert_eq!(rt; found.as_str(), want.as_str());
    Ok(())
}

/// A document of a thousand rules, each of which but the last is the next one, and the last is this.
fn chain(rt: &impl Ground, last: &str) -> Result<String, Fail> {
    let mut doc = String::from_str(rt.alloc(), "a #ABNF 1.0;")?;
    for i in 0..999u32 {
        let next = i + 1;
        doc.push_str(format!(in rt.alloc(); "$r{i} = $r{next};")?.as_str())?;
    }
    doc.push_str(format!(in rt.alloc(); "$r999 = {last};")?.as_str())?;
    Ok(doc)
}

#[test]
fn a_thousand_rules_stand_in_a_chain(host: HostRuntime) -> Result<(), Fail> {
    let rt = &host;
    let doc = chain(rt, "x")?;
    let found = answer(rt, doc.as_str(), "a")?;
    assert_eq!(rt; found.as_str(), "1 documents");
    Ok(())
}

/// Rules 0 to 8 take 10 characters each, rule 9 takes 11, and those behind it 12.
#[test]
fn a_thousand_rules_stand_in_a_ring(host: HostRuntime) -> Result<(), Fail> {
    let rt = &host;
    let doc = chain(rt, "$r0")?;
    let mut want = String::new(rt.alloc());
    for i in 0..10usize {
        tell(rt, &mut want, "SelfDerive", 11 + 10 * i)?;
    }
    for i in 10..64usize {
        tell(rt, &mut want, "SelfDerive", 112 + 12 * (i - 10))?;
    }
    want.push_str(" of 1000")?;
    let found = answer(rt, doc.as_str(), "a")?;
    assert_eq!(rt; found.as_str(), want.as_str());
    Ok(())
}
