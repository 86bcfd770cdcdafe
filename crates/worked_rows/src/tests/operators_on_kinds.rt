//! Every other operator between values of every two kinds: the left one is one of null, true, 6, "b", [1], {a:1}.
use super::values;

const OR: &str = r#"null || null => null
null || false => false
null || -4 => -4
null || "" => ""
null || [2] => [2]
null || {b:2} => {"b":2}
true || null => true
true || false => true
true || -4 => true
true || "" => true
true || [2] => true
true || {b:2} => true
6 || null => 6
6 || false => 6
6 || -4 => 6
6 || "" => 6
6 || [2] => 6
6 || {b:2} => 6
"b" || null => "b"
"b" || false => "b"
"b" || -4 => "b"
"b" || "" => "b"
"b" || [2] => "b"
"b" || {b:2} => "b"
[1] || null => [1]
[1] || false => [1]
[1] || -4 => [1]
[1] || "" => [1]
[1] || [2] => [1]
[1] || {b:2} => [1]
{a:1} || null => {"a":1}
{a:1} || false => {"a":1}
{a:1} || -4 => {"a":1}
{a:1} || "" => {"a":1}
{a:1} || [2] => {"a":1}
{a:1} || {b:2} => {"a":1}"#;

const AND: &str = r#"null && null => null
null && false => null
null && -4 => null
null && "" => null
null && [2] => null
null && {b:2} => null
true && null => null
true && false => false
true && -4 => -4
true && "" => ""
true && [2] => [2]
true && {b:2} => {"b":2}
6 && null => null
6 && false => false
6 && -4 => -4
6 && "" => ""
6 && [2] => [2]
6 && {b:2} => {"b":2}
"b" && null => null
"b" && false => false
"b" && -4 => -4
"b" && "" => ""
"b" && [2] => [2]
"b" && {b:2} => {"b":2}
[1] && null => null
[1] && false => false
[1] && -4 => -4
[1] && "" => ""
[1] && [2] => [2]
[1] && {b:2} => {"b":2}
{a:1} && null => null
{a:1} && false => false
{a:1} && -4 => -4
{a:1} && "" => ""
{a:1} && [2] => [2]
{a:1} && {b:2} => {"b":2}"#;

const EQUAL: &str = r#"null == null => true
null == false => false
null == -4 => false
null == "" => false
null == [2] => false
null == {b:2} => false
true == null => false
true == false => false
true == -4 => false
true == "" => false
true == [2] => false
true == {b:2} => false
6 == null => false
6 == false => false
6 == -4 => false
6 == "" => false
6 == [2] => false
6 == {b:2} => false
"b" == null => false
"b" == false => false
"b" == -4 => false
"b" == "" => false
"b" == [2] => false
"b" == {b:2} => false
[1] == null => false
[1] == false => false
[1] == -4 => false
[1] == "" => false
[1] == [2] => Kind
[1] == {b:2} => false
{a:1} == null => false
{a:1} == false => false
{a:1} == -4 => false
{a:1} == "" => false
{a:1} == [2] => false
{a:1} == {b:2} => Kind"#;

const UNEQUAL: &str = r#"null != null => false
null != false => true
null != -4 => true
null != "" => true
null != [2] => true
null != {b:2} => true
true != null => true
true != false => true
true != -4 => true
true != "" => true
true != [2] => true
true != {b:2} => true
6 != null => true
6 != false => true
6 != -4 => true
6 != "" => true
6 != [2] => true
6 != {b:2} => true
"b" != null => true
"b" != false => true
"b" != -4 => true
"b" != "" => true
"b" != [2] => true
"b" != {b:2} => true
[1] != null => true
[1] != false => true
[1] != -4 => true
[1] != "" => true
[1] != [2] => Kind
[1] != {b:2} => true
{a:1} != null => true
{a:1} != false => true
{a:1} != -4 => true
{a:1} != "" => true
{a:1} != [2] => true
{a:1} != {b:2} => Kind"#;

const LESS: &str = r#"null < null => Kind
null < false => Kind
null < -4 => Kind
null < "" => Kind
null < [2] => Kind
null < {b:2} => Kind
true < null => Kind
true < false => Kind
true < -4 => Kind
true < "" => Kind
true < [2] => Kind
true < {b:2} => Kind
6 < null => Kind
6 < false => Kind
6 < -4 => false
6 < "" => Kind
6 < [2] => Kind
6 < {b:2} => Kind
"b" < null => Kind
"b" < false => Kind
"b" < -4 => Kind
"b" < "" => false
"b" < [2] => Kind
"b" < {b:2} => Kind
[1] < null => Kind
[1] < false => Kind
[1] < -4 => Kind
[1] < "" => Kind
[1] < [2] => Kind
[1] < {b:2} => Kind
{a:1} < null => Kind
{a:1} < false => Kind
{a:1} < -4 => Kind
{a:1} < "" => Kind
{a:1} < [2] => Kind
{a:1} < {b:2} => Kind"#;

const AT_MOST: &str = r#"null <= null => Kind
null <= false => Kind
null <= -4 => Kind
null <= "" => Kind
null <= [2] => Kind
null <= {b:2} => Kind
true <= null => Kind
true <= false => Kind
true <= -4 => Kind
true <= "" => Kind
true <= [2] => Kind
true <= {b:2} => Kind
6 <= null => Kind
6 <= false => Kind
6 <= -4 => false
6 <= "" => Kind
6 <= [2] => Kind
6 <= {b:2} => Kind
"b" <= null => Kind
"b" <= false => Kind
"b" <= -4 => Kind
"b" <= "" => false
"b" <= [2] => Kind
"b" <= {b:2} => Kind
[1] <= null => Kind
[1] <= false => Kind
[1] <= -4 => Kind
[1] <= "" => Kind
[1] <= [2] => Kind
[1] <= {b:2} => Kind
{a:1} <= null => Kind
{a:1} <= false => Kind
{a:1} <= -4 => Kind
{a:1} <= "" => Kind
{a:1} <= [2] => Kind
{a:1} <= {b:2} => Kind"#;

const GREATER: &str = r#"null > null => Kind
null > false => Kind
null > -4 => Kind
null > "" => Kind
null > [2] => Kind
null > {b:2} => Kind
true > null => Kind
true > false => Kind
true > -4 => Kind
true > "" => Kind
true > [2] => Kind
true > {b:2} => Kind
6 > null => Kind
6 > false => Kind
6 > -4 => true
6 > "" => Kind
6 > [2] => Kind
6 > {b:2} => Kind
"b" > null => Kind
"b" > false => Kind
"b" > -4 => Kind
"b" > "" => true
"b" > [2] => Kind
"b" > {b:2} => Kind
[1] > null => Kind
[1] > false => Kind
[1] > -4 => Kind
[1] > "" => Kind
[1] > [2] => Kind
[1] > {b:2} => Kind
{a:1} > null => Kind
{a:1} > false => Kind
{a:1} > -4 => Kind
{a:1} > "" => Kind
{a:1} > [2] => Kind
{a:1} > {b:2} => Kind"#;

const AT_LEAST: &str = r#"null >= null => Kind
null >= false => Kind
null >= -4 => Kind
null >= "" => Kind
null >= [2] => Kind
null >= {b:2} => Kind
true >= null => Kind
true >= false => Kind
true >= -4 => Kind
true >= "" => Kind
true >= [2] => Kind
true >= {b:2} => Kind
6 >= null => Kind
6 >= false => Kind
6 >= -4 => true
6 >= "" => Kind
6 >= [2] => Kind
6 >= {b:2} => Kind
"b" >= null => Kind
"b" >= false => Kind
"b" >= -4 => Kind
"b" >= "" => true
"b" >= [2] => Kind
"b" >= {b:2} => Kind
[1] >= null => Kind
[1] >= false => Kind
[1] >= -4 => Kind
[1] >= "" => Kind
[1] >= [2] => Kind
[1] >= {b:2} => Kind
{a:1} >= null => Kind
{a:1} >= false => Kind
{a:1} >= -4 => Kind
{a:1} >= "" => Kind
{a:1} >= [2] => Kind
{a:1} >= {b:2} => Kind"#;

#[test]
fn operators_between_all_kinds(host: HostRuntime) {
    let rt = &host;
    values(rt, OR);
    values(rt, AND);
    values(rt, EQUAL);
    values(rt, UNEQUAL);
    values(rt, LESS);
    values(rt, AT_MOST);
    values(rt, GREATER);
    values(rt, AT_LEAST);
}
