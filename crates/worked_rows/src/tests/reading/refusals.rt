//! Texts that are no script, and the place of what fits none.
use super::{Ground, is_read, nested, nests, reads, refuses};

/// What ends too early or goes on too long.
const STATEMENTS: &str = "
9 out = 1 +
8 out = 1 out = 2
6 out =\u{20}
9 a = /* */
11 out = rules
0 for (;;) {}
4 (a) = 1
7 (a)[0] = 1
2 {}.a
8 a = b + else
6 a = b else c
7 if (a) else b
9 if (a) b c
5 if (a
12 if (a) b; ; else c
18 if (a) {} else {} else
17 if (a) b else c; else d
0 else
0 }
2 a } b
2 a {
2 {a: 1}
4 var if
4 var 1
6 var a += 1
5 var a, b
4 a = ;
";

/// Operands and operators.
const EXPRESSIONS: &str = "
4 out.
5 [1, 2
3 [1,]
6 ({a:1,})
5 a ? b
6 a ? b ;
10 a ? b : c = 1
4 a[b = 1]
2 a )
2 a.1
2 a & b
7 rules. = 1
8 rules.a = 1
13 rules.latest(1)
13 rules.current()
7 rules.a(
6 meta.a;
7 meta.a.word
13 meta.latest()
13 meta.current(a).text
3 a++
4 a = = b
6 a = b = c
8 out = b += 1
4 a====b
2 1 = a
3 -a = 1
2 a b
4 a + = b
5 true = 1
";

/// Lexemes.
const LEXEMES: &str = "
1 01
1 1a
1 0x1F
2 1.5
2 1 #
0 'a
4 a = 'a
4 '\u{e9}' 1
0 '\\q'
0 '\\b'
0 '\\0'
0 '\\ud800'
0 '\\ud800\\u0041'
0 '\\udbff\\ue000'
0 '\\udc00'
0 '\\udfff'
0 '\\u12g4'
2 a /* b
2 a /*/
1 a\u{d7}b
1 a\u{a0}b
";

/// The words that name no variable.
const RESERVED: &str = "break
case
catch
continue
default
delete
do
else
false
finally
for
function
if
in
instanceof
meta
new
null
out
return
rules
switch
this
throw
true
try
typeof
var
void
while
with";

/// Whether a row, `place text`, holds. An empty line is no row.
fn holds(rt: &impl Ground, row: &str) -> bool {
    match row.split_once(" ") {
        Some((place, text)) => match place.parse::<u64>() {
            Ok(place) => refuses(rt, text, place),
            Err(_) => false,
        },
        None => row.is_empty(),
    }
}

fn each_holds(rt: &impl Ground, rows: &str) {
    for row in rows.lines() {
        assert!(rt; holds(rt, row), "{row:?}");
    }
}

#[test]
fn statements_that_fit_none(rt: HostRuntime) {
    each_holds(&rt, STATEMENTS);
}

#[test]
fn expressions_that_fit_none(rt: HostRuntime) {
    each_holds(&rt, EXPRESSIONS);
}

#[test]
fn lexemes_that_fit_none(rt: HostRuntime) {
    each_holds(&rt, LEXEMES);
    assert!(rt; refuses(&rt, "'a\nb'", 0));
    assert!(rt; refuses(&rt, "'a\rb'", 0));
}

/// Whether the word names a variable nowhere, and a member everywhere.
fn is_reserved(rt: &impl Ground, word: &str) -> bool {
    let declared = format!(in rt.alloc(); "var {word}").expect(rt, "memory");
    let member = format!(in rt.alloc(); "a = {{{word}: b.{word}}}").expect(rt, "memory");
    let want = format!(in rt.alloc(); "a={{'{word}':b.{word},}};").expect(rt, "memory");
    refuses(rt, declared.as_str(), 4) && reads(rt, member.as_str(), want.as_str())
}

#[test]
fn reserved_words_name_no_variable(rt: HostRuntime) {
    for word in RESERVED.lines() {
        assert!(rt; is_reserved(&rt, word), "{word}");
    }
}

#[test]
fn brackets_and_signs_have_a_limit(rt: HostRuntime) {
    assert!(rt; nests(&rt, "out = ", "(", "1", ")", 64, 70));
    assert!(rt; nests(&rt, "out = ", "[", "1", "]", 64, 70));
    assert!(rt; nests(&rt, "a = ", "{b:", "1", "}", 64, 196));
    assert!(rt; nests(&rt, "a", "[b", "", "]", 64, 129));
    assert!(rt; nests(&rt, "a = ", "-", "1", "", 64, 68));
    assert!(rt; nests(&rt, "a = ", "!", "b", "", 64, 68));
    assert!(rt; nests(&rt, "a = ", "b ? ", "c", " : d", 64, 262));
    assert!(rt; nests(&rt, "a = ", "b ? c : ", "d", "", 64, 518));
    assert!(rt; nests(&rt, "a = ", "(", "rules.latest()", ")", 63, 80));
    assert!(rt; nests(&rt, "a = ", "(", "meta.latest().text", ")", 63, 79));
}

#[test]
fn statements_have_a_limit(rt: HostRuntime) {
    assert!(rt; nests(&rt, "", "{", ";", "}", 64, 64));
    assert!(rt; nests(&rt, "", "if (a) b; else ", "d", "", 64, 960));
    assert!(rt; nests(&rt, "", "if (a) ", "d", "", 64, 448));
    assert!(rt; nests(&rt, "", "{", "if (a) b", "}", 63, 64));
    assert!(rt; nests(&rt, "", "{", "if ((a)) b", "}", 62, 67));
}

#[test]
fn what_is_closed_counts_no_more(rt: HostRuntime) {
    let mut text = nested(&rt, "a = ", "(", "1", ")", 64);
    let more = nested(&rt, " + ", "(", "1", ")", 64);
    text.push_str(more.as_str()).expect(&rt, "memory");
    text.push(';').expect(&rt, "memory");
    assert!(rt; is_read(&rt, text.as_str()));
}
