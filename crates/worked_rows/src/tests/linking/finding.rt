//! What is found in a version: a row is a key's name, with a rule's name behind `#`.
use super::super::{Ground, characters};
use super::{key_of, linked};
use linker::{Linking, Version};
use std::test::Fail;

fn found(rt: &impl Ground, version: &Version, reference: &str) -> Result<String, Fail> {
    let found = match reference.split_once("#") {
        Some((name, rule)) => {
            let rule = characters(rt, rule);
            version.find(&key_of(rt, name), Some(&rule))
        }
        None => version.find(&key_of(rt, reference), None),
    };
    Ok(format!(in rt.alloc(); "{found:?}")?)
}

const DOCUMENTS: &str = "a $r = x;public $p = y; & b #ABNF 1.0;public $q = $<a>;";

const REFERENCES: &str = r#"a => Rule(RuleIx(0))
a#r => NotPublic
a#p => Rule(RuleIx(1))
a#z => NoRule
b => NoRoot
b#q => Rule(RuleIx(2))
c => NoDocument"#;

#[test]
fn rules_are_found_in_a_version(host: HostRuntime) -> Result<(), Fail> {
    let rt = &host;
    let linking = linked(rt, DOCUMENTS, "b")?;
    assert!(rt; matches!(linking, Linking::Sound(_)));
    if let Linking::Sound(version) = linking {
        for row in REFERENCES.lines() {
            let parts = row.split_once(" => ");
            assert!(rt; parts.is_some(), "{row}");
            if let Some((reference, want)) = parts {
                assert_eq!(rt; found(rt, &version, reference)?.as_str(), want, "{row}");
            }
        }
    }
    Ok(())
}
