use super::{scripts, values};

const PLUS_JOINS_TEXTS_AND_ADDS_NUMBERS: &str = r#"2 + -5 => -3
"a" + 1 + true => "a1true"
1 + 2 + "a" => "3a"
"a" + (1 + 2) => "a3"
"a" + ("b" + "c") + "d" => "abcd"
-10 + "" => "-10"
null + "!" => "null!"
1 + true => Kind
null + null => Kind
"a" + "b" + [] => Kind
{} + "a" => Kind"#;

const A_CHAIN_LEAVES_ITS_OPERANDS: &str = r#"x = "a"; y = x + "b" + "c"; out = x + y + x => "aabca"
out = "a"; out = out + out + out => "aaa""#;

const NUMBERS_STAY_WITHIN_TWO_TO_THE_53: &str = r#"9007199254740991 + 0 => 9007199254740991
9007199254740991 + 1 => Range
-9007199254740991 - 1 => Range
9007199254740991 * 9007199254740991 => Range
-3 * 4 => -12
"3" * 4 => Kind
4 - null => Kind"#;

const QUOTIENTS_ARE_WHOLE: &str = r#"6 / 2 => 3
-6 / 2 => -3
7 / 2 => Fraction
7 / 0 => Fraction
-7 % 2 => -1
7 % -2 => 1
7 % 0 => Fraction
true % 1 => Kind"#;

const NUMBERS_AND_STRINGS_ARE_ORDERED: &str = r#"2 < 10 => true
"2" < "10" => false
"a" <= "a" => true
"\ud83d\udcde" > "\uffee" => true
-1 >= 0 => false
1 < "a" => Kind
false < true => Kind"#;

const VALUES_OF_ONE_KIND_MAY_BE_THE_SAME: &str = r#"1 == "1" => false
"1" === "1" => true
null == false => false
null !== null => false
[] != {} => true
[] == [] => Kind
{} != {} => Kind"#;

const SIGNS_AND_NOT: &str = r#"-7 => -7
+7 => 7
+"7" => Kind
-null => Kind
-(-7) => 7
!"" => true
![] => false
!!0 => false"#;

const WHAT_IS_NOT_NEEDED_IS_NOT_EVALUATED: &str = r#"false && x => false
1 && x => Unknown
"a" || x => "a"
0 || null => null
0 || "" || 3 || x => 3
1 && "a" && 0 && x => 0
true ? 1 : x => 1
null ? x : [2] => [2]
x => Unknown"#;

#[test]
fn operators_between_values(host: HostRuntime) {
    let rt = &host;
    values(rt, PLUS_JOINS_TEXTS_AND_ADDS_NUMBERS);
    scripts(rt, A_CHAIN_LEAVES_ITS_OPERANDS);
    values(rt, NUMBERS_STAY_WITHIN_TWO_TO_THE_53);
    values(rt, QUOTIENTS_ARE_WHOLE);
    values(rt, NUMBERS_AND_STRINGS_ARE_ORDERED);
    values(rt, VALUES_OF_ONE_KIND_MAY_BE_THE_SAME);
}

#[test]
fn operators_that_choose(host: HostRuntime) {
    let rt = &host;
    values(rt, SIGNS_AND_NOT);
    values(rt, WHAT_IS_NOT_NEEDED_IS_NOT_EVALUATED);
}
