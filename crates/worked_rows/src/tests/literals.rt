use super::scripts;

const VALUES_HAVE_LIMITS: &str =
    r#"x = "0123456789abcdef"; x += x; x += x; x += x; x += x; x += x; x += x; x += x; x += x; x += x; x += x; x += x; x += x; out = x.length => 65536
x = "0123456789abcdef"; x += x; x += x; x += x; x += x; x += x; x += x; x += x; x += x; x += x; x += x; x += x; x += x; x += x => TextLong
x = null; x = [x, x]; x = [x, x]; x = [x, x]; x = [x, x]; x = [x, x]; x = [x, x]; x = [x, x]; x = [x, x]; x = [x, x]; x = [x, x]; x = [x, x]; out = x.length => 2
x = null; x = [x, x]; x = [x, x]; x = [x, x]; x = [x, x]; x = [x, x]; x = [x, x]; x = [x, x]; x = [x, x]; x = [x, x]; x = [x, x]; x = [x, x]; x = [x, x] => Wide
x = null; x = [[[[[[[[x]]]]]]]]; x = [[[[[[[[x]]]]]]]]; x = [[[[[[[[x]]]]]]]]; x = [[[[[[[[x]]]]]]]]; x = [[[[[[[[x]]]]]]]]; x = [[[[[[[[x]]]]]]]]; x = [[[[[[[[x]]]]]]]]; x = [[[[[[[x]]]]]]]; out = x.length => 1
x = null; x = [[[[[[[[x]]]]]]]]; x = [[[[[[[[x]]]]]]]]; x = [[[[[[[[x]]]]]]]]; x = [[[[[[[[x]]]]]]]]; x = [[[[[[[[x]]]]]]]]; x = [[[[[[[[x]]]]]]]]; x = [[[[[[[[x]]]]]]]]; x = [[[[[[[[x]]]]]]]] => DeepValue"#;

const A_LATER_PARTS_FAULT_COMES_FIRST: &str =
    r#"x = null; x = [x, x]; x = [x, x]; x = [x, x]; x = [x, x]; x = [x, x]; x = [x, x]; x = [x, x]; x = [x, x]; x = [x, x]; x = [x, x]; x = [x, x]; out = [x, x] => Wide
x = null; x = [x, x]; x = [x, x]; x = [x, x]; x = [x, x]; x = [x, x]; x = [x, x]; x = [x, x]; x = [x, x]; x = [x, x]; x = [x, x]; x = [x, x]; out = [x, x, y] => Unknown
x = null; x = [x, x]; x = [x, x]; x = [x, x]; x = [x, x]; x = [x, x]; x = [x, x]; x = [x, x]; x = [x, x]; x = [x, x]; x = [x, x]; x = [x, x]; out = [x, x, 7 / 2] => Fraction
x = null; x = [x, x]; x = [x, x]; x = [x, x]; x = [x, x]; x = [x, x]; x = [x, x]; x = [x, x]; x = [x, x]; x = [x, x]; x = [x, x]; x = [x, x]; out = [x, x, [x, x], y] => Wide
x = null; x = [x, x]; x = [x, x]; x = [x, x]; x = [x, x]; x = [x, x]; x = [x, x]; x = [x, x]; x = [x, x]; x = [x, x]; x = [x, x]; x = [x, x]; out = [x, y, x] => Unknown
x = "0123456789abcdef"; x += x; x += x; x += x; x += x; x += x; x += x; x += x; x += x; x += x; x += x; x += x; x += x; y = [x, x, x, x]; out = [y, ""].length => 2
x = "0123456789abcdef"; x += x; x += x; x += x; x += x; x += x; x += x; x += x; x += x; x += x; x += x; x += x; x += x; y = [x, x, x, x]; out = [y, "a"] => Wide
x = "0123456789abcdef"; x += x; x += x; x += x; x += x; x += x; x += x; x += x; x += x; x += x; x += x; x += x; x += x; y = [x, x, x, x]; out = [y, y, x + "a"] => TextLong"#;

const THE_LAST_OF_EQUAL_KEYS_COUNTS: &str = r#"out = {b: 1, b: 2} => {"b":2}
out = {b: 1, a: 2} => {"a":2,"b":1}
out = {b: 1, a: 2, b: 3} => {"a":2,"b":3}
out = {b: y, b: 3} => Unknown
x = null; x = [x, x]; x = [x, x]; x = [x, x]; x = [x, x]; x = [x, x]; x = [x, x]; x = [x, x]; x = [x, x]; x = [x, x]; x = [x, x]; x = [x, x]; out = {a: x, a: x}.a.length => 2
x = null; x = [x, x]; x = [x, x]; x = [x, x]; x = [x, x]; x = [x, x]; x = [x, x]; x = [x, x]; x = [x, x]; x = [x, x]; x = [x, x]; x = [x, x]; out = {a: x, b: x, a: 1, b: 2}.a => 1
x = null; x = [x, x]; x = [x, x]; x = [x, x]; x = [x, x]; x = [x, x]; x = [x, x]; x = [x, x]; x = [x, x]; x = [x, x]; x = [x, x]; x = [x, x]; out = {a: x, b: x} => Wide
x = null; x = [x, x]; x = [x, x]; x = [x, x]; x = [x, x]; x = [x, x]; x = [x, x]; x = [x, x]; x = [x, x]; x = [x, x]; x = [x, x]; x = [x, x]; out = {a: x, b: x, c: y} => Unknown
x = null; x = [x, x]; x = [x, x]; x = [x, x]; x = [x, x]; x = [x, x]; x = [x, x]; x = [x, x]; x = [x, x]; x = [x, x]; x = [x, x]; x = [x, x]; out = {a: x, b: x, b: 1, a: 2} => {"a":2,"b":1}"#;

#[test]
fn values_have_limits(host: HostRuntime) {
    scripts(&host, VALUES_HAVE_LIMITS);
}

#[test]
fn literals_have_limits(host: HostRuntime) {
    let rt = &host;
    scripts(rt, A_LATER_PARTS_FAULT_COMES_FIRST);
    scripts(rt, THE_LAST_OF_EQUAL_KEYS_COUNTS);
}
