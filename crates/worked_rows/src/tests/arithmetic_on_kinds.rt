//! Every operator of arithmetic between values of every two kinds: the left one is one of null, true, 6, "b", [1], {a:1}.
use super::values;

const PLUS: &str = r#"null + null => Kind
null + false => Kind
null + -4 => Kind
null + "" => "null"
null + [2] => Kind
null + {b:2} => Kind
true + null => Kind
true + false => Kind
true + -4 => Kind
true + "" => "true"
true + [2] => Kind
true + {b:2} => Kind
6 + null => Kind
6 + false => Kind
6 + -4 => 2
6 + "" => "6"
6 + [2] => Kind
6 + {b:2} => Kind
"b" + null => "bnull"
"b" + false => "bfalse"
"b" + -4 => "b-4"
"b" + "" => "b"
"b" + [2] => Kind
"b" + {b:2} => Kind
[1] + null => Kind
[1] + false => Kind
[1] + -4 => Kind
[1] + "" => Kind
[1] + [2] => Kind
[1] + {b:2} => Kind
{a:1} + null => Kind
{a:1} + false => Kind
{a:1} + -4 => Kind
{a:1} + "" => Kind
{a:1} + [2] => Kind
{a:1} + {b:2} => Kind"#;

const MINUS: &str = r#"null - null => Kind
null - false => Kind
null - -4 => Kind
null - "" => Kind
null - [2] => Kind
null - {b:2} => Kind
true - null => Kind
true - false => Kind
true - -4 => Kind
true - "" => Kind
true - [2] => Kind
true - {b:2} => Kind
6 - null => Kind
6 - false => Kind
6 - -4 => 10
6 - "" => Kind
6 - [2] => Kind
6 - {b:2} => Kind
"b" - null => Kind
"b" - false => Kind
"b" - -4 => Kind
"b" - "" => Kind
"b" - [2] => Kind
"b" - {b:2} => Kind
[1] - null => Kind
[1] - false => Kind
[1] - -4 => Kind
[1] - "" => Kind
[1] - [2] => Kind
[1] - {b:2} => Kind
{a:1} - null => Kind
{a:1} - false => Kind
{a:1} - -4 => Kind
{a:1} - "" => Kind
{a:1} - [2] => Kind
{a:1} - {b:2} => Kind"#;

const TIMES: &str = r#"null * null => Kind
null * false => Kind
null * -4 => Kind
null * "" => Kind
null * [2] => Kind
null * {b:2} => Kind
true * null => Kind
true * false => Kind
true * -4 => Kind
true * "" => Kind
true * [2] => Kind
true * {b:2} => Kind
6 * null => Kind
6 * false => Kind
6 * -4 => -24
6 * "" => Kind
6 * [2] => Kind
6 * {b:2} => Kind
"b" * null => Kind
"b" * false => Kind
"b" * -4 => Kind
"b" * "" => Kind
"b" * [2] => Kind
"b" * {b:2} => Kind
[1] * null => Kind
[1] * false => Kind
[1] * -4 => Kind
[1] * "" => Kind
[1] * [2] => Kind
[1] * {b:2} => Kind
{a:1} * null => Kind
{a:1} * false => Kind
{a:1} * -4 => Kind
{a:1} * "" => Kind
{a:1} * [2] => Kind
{a:1} * {b:2} => Kind"#;

const QUOTIENT: &str = r#"null / null => Kind
null / false => Kind
null / -4 => Kind
null / "" => Kind
null / [2] => Kind
null / {b:2} => Kind
true / null => Kind
true / false => Kind
true / -4 => Kind
true / "" => Kind
true / [2] => Kind
true / {b:2} => Kind
6 / null => Kind
6 / false => Kind
6 / -4 => Fraction
6 / "" => Kind
6 / [2] => Kind
6 / {b:2} => Kind
"b" / null => Kind
"b" / false => Kind
"b" / -4 => Kind
"b" / "" => Kind
"b" / [2] => Kind
"b" / {b:2} => Kind
[1] / null => Kind
[1] / false => Kind
[1] / -4 => Kind
[1] / "" => Kind
[1] / [2] => Kind
[1] / {b:2} => Kind
{a:1} / null => Kind
{a:1} / false => Kind
{a:1} / -4 => Kind
{a:1} / "" => Kind
{a:1} / [2] => Kind
{a:1} / {b:2} => Kind"#;

const REMAINDER: &str = r#"null % null => Kind
null % false => Kind
null % -4 => Kind
null % "" => Kind
null % [2] => Kind
null % {b:2} => Kind
true % null => Kind
true % false => Kind
true % -4 => Kind
true % "" => Kind
true % [2] => Kind
true % {b:2} => Kind
6 % null => Kind
6 % false => Kind
6 % -4 => 2
6 % "" => Kind
6 % [2] => Kind
6 % {b:2} => Kind
"b" % null => Kind
"b" % false => Kind
"b" % -4 => Kind
"b" % "" => Kind
"b" % [2] => Kind
"b" % {b:2} => Kind
[1] % null => Kind
[1] % false => Kind
[1] % -4 => Kind
[1] % "" => Kind
[1] % [2] => Kind
[1] % {b:2} => Kind
{a:1} % null => Kind
{a:1} % false => Kind
{a:1} % -4 => Kind
{a:1} % "" => Kind
{a:1} % [2] => Kind
{a:1} % {b:2} => Kind"#;

#[test]
fn arithmetic_between_all_kinds(host: HostRuntime) {
    let rt = &host;
    values(rt, PLUS);
    values(rt, MINUS);
    values(rt, TIMES);
    values(rt, QUOTIENT);
    values(rt, REMAINDER);
}
