use crate::{Uri, UriFault, UriRefused, resolve, split_fragment};
use std::alloc::{AllocError, Global};
use std::process::Abort;
use std::test::Fail;
use vg_base::{Refused, Text};

fn read(alloc: Global, text: &str) -> Result<Uri, UriRefused> {
    Uri::read(alloc, &Text::of(alloc, text)?)
}

fn told(answer: &Result<Uri, UriRefused>) -> &str {
    match answer {
        Ok(uri) => uri.text().as_str(),
        Err(Refused::Fault(fault)) => fault.name(),
        Err(Refused::Memory) => "Memory",
    }
}

fn repeated(alloc: Global, front: &str, count: usize) -> Result<String, AllocError> {
    let mut text = String::from_str(alloc, front)?;
    for _ in 0..count {
        text.push_str("a")?;
    }
    Ok(text)
}

fn resolved(
    rt: &impl Abort,
    alloc: Global,
    base: &str,
    reference: &str,
) -> Result<Uri, UriRefused> {
    let base = read(alloc, base)?;
    assert!(rt; base.has_scheme());
    Ok(resolve(alloc, &base, &read(alloc, reference)?)?)
}

// The examples of RFC 3986 sections 5.4.1 and 5.4.2, strict: a reference, a space, and its target.
const EXAMPLES: &str = "g:h g:h
g http://a/b/c/g
./g http://a/b/c/g
g/ http://a/b/c/g/
/g http://a/g
//g http://g
?y http://a/b/c/d;p?y
g?y http://a/b/c/g?y
#s http://a/b/c/d;p?q#s
g#s http://a/b/c/g#s
g?y#s http://a/b/c/g?y#s
;x http://a/b/c/;x
g;x http://a/b/c/g;x
g;x?y#s http://a/b/c/g;x?y#s
 http://a/b/c/d;p?q
. http://a/b/c/
./ http://a/b/c/
.. http://a/b/
../ http://a/b/
../g http://a/b/g
../.. http://a/
../../ http://a/
../../g http://a/g
../../../g http://a/g
../../../../g http://a/g
/./g http://a/g
/../g http://a/g
g. http://a/b/c/g.
.g http://a/b/c/.g
g.. http://a/b/c/g..
..g http://a/b/c/..g
./../g http://a/b/g
./g/. http://a/b/c/g/
g/./h http://a/b/c/g/h
g/../h http://a/b/c/h
g;x=1/./y http://a/b/c/g;x=1/y
g;x=1/../y http://a/b/c/y
g?y/./x http://a/b/c/g?y/./x
g?y/../x http://a/b/c/g?y/../x
g#s/./x http://a/b/c/g#s/./x
g#s/../x http://a/b/c/g#s/../x
http:g http:g
";

#[test]
fn references_resolve_as_in_the_standard(rt: HostRuntime) -> Result<(), Fail> {
    let mut count = 0u32;
    for line in EXAMPLES.lines() {
        let (reference, target) = line.split_once(' ').ok_or("a line without a space")?;
        let found = resolved(&rt, rt.alloc(), "http://a/b/c/d;p?q", reference)?;
        assert_eq!(rt; found.text().as_str(), target, "of {reference:?}");
        count = count.saturating_add(1);
    }
    assert_eq!(rt; count, 42);
    Ok(())
}

#[test]
fn paths_merge_with_other_bases(rt: HostRuntime) -> Result<(), Fail> {
    let rows = [
        ("http://a?q", "b/./c", "http://a/b/c"),
        ("x:a", "b", "x:b"),
        ("x:", "g", "x:g"),
        ("x:a/b", "../../c", "x:/c"),
        ("x://h/a?q#f", "", "x://h/a?q"),
    ];
    for (base, reference, target) in rows {
        let found = resolved(&rt, rt.alloc(), base, reference)?;
        assert_eq!(rt;
            found.text().as_str(),
            target,
            "of {reference:?} at {base:?}"
        );
    }
    Ok(())
}

#[test]
fn references_are_read_or_refused(rt: HostRuntime) -> Result<(), Fail> {
    let alloc = rt.alloc();
    let rows = [
        ("a+b-c.1:x", "a+b-c.1:x"),
        (
            "http://[::1]:80/%7ea?b/?#c/?",
            "http://[::1]:80/%7ea?b/?#c/?",
        ),
        ("", ""),
        ("./a:b", "./a:b"),
        (":a", "NotUri"),
        ("1a:b", "NotUri"),
        ("a_b:c", "NotUri"),
        ("a b", "NotUri"),
        ("a%2g", "NotUri"),
        ("a%2", "NotUri"),
        ("/[a]", "NotUri"),
        ("a#b#c", "NotUri"),
        ("é", "NotUri"),
    ];
    for (text, want) in rows {
        let found = read(alloc, text);
        assert_eq!(rt; told(&found), want, "of {text:?}");
    }
    Ok(())
}

#[test]
fn keys_lose_their_dot_segments(rt: HostRuntime) -> Result<(), Fail> {
    let alloc = rt.alloc();
    let rows = [
        ("http://e/./a/../b?./c", "http://e/b?./c"),
        ("x:/.//a", "x://a"),
        ("HTTP://E/%7Ea", "HTTP://E/%7Ea"),
        ("a", "NotAbsolute"),
        ("//e/a", "NotAbsolute"),
        ("http://e/a#", "NotAbsolute"),
        ("a b", "NotUri"),
    ];
    for (text, want) in rows {
        let found = Uri::read_key(alloc, &Text::of(alloc, text)?);
        assert_eq!(rt; told(&found), want, "of {text:?}");
    }
    Ok(())
}

#[test]
fn length_is_looked_at_first(rt: HostRuntime) -> Result<(), Fail> {
    let alloc = rt.alloc();
    let rows = [
        ("x:", 2046, "x"),
        ("x:", 2047, "UriLong"),
        (" ", 2047, "NotUri"),
        (" é", 2046, "UriLong"),
    ];
    for (front, count, want) in rows {
        let text = repeated(alloc, front, count)?;
        let found = read(alloc, text.as_str());
        assert!(rt; told(&found).starts_with(want), "{count} after {front:?}");
    }
    let base = repeated(alloc, "x://", 2000)?;
    let path = repeated(alloc, "/", 2000)?;
    let joined = resolved(&rt, alloc, base.as_str(), path.as_str())?;
    assert_eq!(rt; joined.text().as_str().len(), 4005);
    Ok(())
}

#[test]
fn fragments_are_split_off(rt: HostRuntime) -> Result<(), Fail> {
    let alloc = rt.alloc();
    let rows = [
        ("x:a?b#c", "x:a?b", Some("c")),
        ("a#", "a", Some("")),
        ("x:a", "x:a", None),
    ];
    for (text, front, fragment) in rows {
        let uri = read(alloc, text)?.copy()?;
        let found = split_fragment(alloc, &uri)?;
        assert_eq!(rt; found.0.text().as_str(), front, "of {text:?}");
        assert_eq!(rt;
            found.1.as_ref().map(|f| f.as_str()),
            fragment,
            "of {text:?}"
        );
    }
    Ok(())
}

#[test]
fn faults_have_numbers_and_names(rt: HostRuntime) {
    let rows = [
        (UriFault::NotUri, 1, "NotUri"),
        (UriFault::UriLong, 2, "UriLong"),
        (UriFault::NotAbsolute, 3, "NotAbsolute"),
    ];
    for (fault, number, name) in rows {
        assert_eq!(rt; fault.number(), number);
        assert_eq!(rt; fault.name(), name);
    }
}
