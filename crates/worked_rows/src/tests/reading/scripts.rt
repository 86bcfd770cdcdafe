//! Scripts, with a bracket around each part of what they mean.
use super::{Ground, reads, refuses, shown};

/// Operators, and how they group.
const OPERATORS: &str = "
a--b => (a-(-b));
a - b - c => ((a-b)-c);
a - b % c => (a-(b%c));
a || b && c == d < e + f * -g => (a||(b&&(c==(d<(e+(f*(-g)))))));
-a * b + c < d == e && f || g => (((((((-a)*b)+c)<d)==e)&&f)||g);
a === b !== c != d => (((a==b)!=c)!=d);
a <= b >= c > d => (((a<=b)>=c)>d);
a / b % c => ((a/b)%c);
a ? b : c ? d : e => (a?b:(c?d:e));
a ? b ? c : d : e => (a?(b?c:d):e);
!+-a => (!(+(-a)));
(a + b) * c => ((a+b)*c);
-a.b => (-a.b);
out = 9007199254740991 + 1 => out=(9007199254740991+1);
out = 7/2 => out=(7/2);
out = 6/2 => out=(6/2);
";

/// What may stand as an operand.
const OPERANDS: &str = "
[1, 'two', true, false, null] => [1,'two',true,false,null,];
out = [] => out=[];
out[out.length] = rules.top => out[out.length]=rule top;
a = {} => a={};
a = {b: 1, 'c d': 2, 7: 3, if: 4} => a={'b':1,'c d':2,'7':3,'if':4,};
a = {1: 2, 'x': 3}.x => a={'1':2,'x':3,}.x;
rules.latest() => latest rule;
rules.latest => rule latest;
rules.latest.a => rule latest.a;
rules.if => rule if;
meta.latest().text => latest text;
meta.current().text => current text;
meta.latest.text => text of latest;
meta.w.text.length => text of w.length;
latest + current + text => ((latest+current)+text);
$a_1 => $a_1;
undefined => undefined;
a\u{b7}b = 1 => a\u{b7}b=1;
\u{e9} = $a$b => \u{e9}=$a$b;
\u{feff}a = 1 => \u{feff}a=1;
";

/// Statements, and where they end.
const STATEMENTS: &str = "
;=> ;
out = 1=> out=1;
 out = {count: rules.number, size: rules.size, toppings: rules.list, total: rules.number * 9}; => out={'count':rule number,'size':rule size,'toppings':rule list,'total':(rule number*9),};
a.b[c].else += 1 => a.b[c].else+=1;
out.a -= b => out.a-=b;
var a; var b = 1 => var a;var b=1;
var a => var a;
if (a) if (b) x; else y => if a<if b<x;|y;>;>;
if (a) x; else if (b) y; else z; w => if a<x;|if b<y;|z;>;>;w;
if (a) if (b) c else d else e => if a<if b<c;|d;>;|e;>;
if (a) x else y => if a<x;|y;>;
if (a) 1else b => if a<1;|b;>;
if (a) {x} y => if a<{x;};>;y;
if (a) ; else ; => if a<;|;>;
{a; b = 1} c => {a;b=1;};c;
{{}} => {{};};
{} {} a => {};{};a;
a /* x */ = /**/b => a=b;
1 // => 1;
a // b\u{2028}= 1 => a;
";

/// Whether a row, `text => printed`, holds. An empty line is no row.
fn holds(rt: &impl Ground, row: &str) -> bool {
    match row.split_once("=> ") {
        Some((text, want)) => reads(rt, text, want),
        None => row.is_empty(),
    }
}

fn each_holds(rt: &impl Ground, rows: &str) {
    for row in rows.lines() {
        assert!(rt; holds(rt, row), "{row:?}");
    }
}

#[test]
fn operators_group(rt: HostRuntime) {
    each_holds(&rt, OPERATORS);
}

#[test]
fn operands_are_read(rt: HostRuntime) {
    each_holds(&rt, OPERANDS);
}

#[test]
fn statements_are_read(rt: HostRuntime) {
    each_holds(&rt, STATEMENTS);
}

#[test]
fn strings_are_decoded(rt: HostRuntime) {
    assert!(rt; reads(&rt, r#""a'b""#, "'a'b';"));
    assert!(rt; reads(&rt, r#"'\\\"\'\/\n\r\t'"#, "'\\\"'/\n\r\t';"));
    assert!(rt; reads(&rt, r#"'\u0041\u00e9\u00E9'"#, "'A\u{e9}\u{e9}';"));
    assert!(rt; reads(&rt, r#"'\ud83d\ude00'"#, "'\u{1f600}';"));
    assert!(rt; reads(&rt, r#"'\udbff\udfff'"#, "'\u{10ffff}';"));
    assert!(rt; reads(&rt, r#"'\ue000'"#, "'\u{e000}';"));
    assert!(rt; reads(&rt, "'a\u{2028}b'", "'a\u{2028}b';"));
    assert!(rt; reads(&rt, "''", "'';"));
}

#[test]
fn comments_stand_between_lexemes(rt: HostRuntime) {
    assert!(rt; reads(&rt, "a // b\n= 1 /* c\n */ ; // d", "a=1;"));
    assert!(rt; reads(&rt, "// a\r\nb/**// c", "(b/c);"));
    assert!(rt; reads(&rt, "a // b\r= 1", "a=1;"));
    assert!(rt; reads(&rt, "a\t=\r\n1", "a=1;"));
}

#[test]
fn numbers_have_a_limit(rt: HostRuntime) {
    assert!(rt; reads(&rt, "0", "0;"));
    assert!(rt; reads(&rt, "9007199254740991", "9007199254740991;"));
    assert!(rt; refuses(&rt, "a = 9007199254740992", 4));
    assert!(rt; refuses(&rt, "99999999999999999999999", 0));
}

#[test]
fn a_refusal_is_shown(rt: HostRuntime) {
    assert_eq!(rt;
        shown(&rt, "out = 1 +").as_str(),
        "character 9 fits no script"
    );
}
