use super::scripts;

const ITEMS_ARE_SET_AND_APPENDED: &str = r#"out = [1, 2]; out[0] = 9 => [9,2]
out = [1, 2]; out[2] = 9 => [1,2,9]
out = [1, 2]; out[out.length] = 9 => [1,2,9]
out = [1, 2]; out[3] = 9 => Range
out = [1, 2]; out[-1] = 9 => Range
out = [1, 2]; out["0"] = 9 => Kind
out = [1, 2]; out.length = 9 => Kind"#;

const MEMBERS_ARE_SET_AND_MADE: &str = r#"out = {}; out.b = 9 => {"b":9}
out = {b: 1}; out.b = 9 => {"b":9}
out = {}; out[-1] = 9 => {"-1":9}
out = {}; out[true] = 9 => Kind
out = {}; out[null] = 9 => Kind
out = 5; out.b = 9 => Kind
out = "abc"; out[0] = 9 => Kind"#;

const STEPS_BEFORE_THE_LAST_MUST_BE_THERE: &str = r#"out = [[1, 2]]; out[0][1] = 9 => [[1,9]]
out = [1, [2, 3], 4]; out[1][0] = 9 => [1,[9,3],4]
out = [[1, 2]]; out[1][0] = 9 => Kind
out = [[1, 2]]; out[-1][0] = 9 => Kind
out = {}; out.b.c = 9 => Kind
out = {a: [{b: 1}]}; out.a[0].b = 9 => {"a":[{"b":9}]}
out = [1, 2]; out[0][0] = 9 => Kind"#;

const ROOTS_THAT_ARE_NOT_THERE: &str = r#"x.b = 1 => Kind
x += 1 => Unknown
out.c += 1 => Kind"#;

const INDICES_COME_FIRST_AND_THE_WALK_LAST: &str = r#"out[1 < "a"] = x => Kind
y.b = x => Unknown
out[true] += x => Kind"#;

const TARGETS_ARE_ADDED_TO: &str = r#"out = 7; out += 2 => 9
out = 7; out -= 2 => 5
out = [1, 2]; out[1] += "x" => [1,"2x"]"#;

#[test]
fn targets_are_given_values(host: HostRuntime) {
    let rt = &host;
    scripts(rt, ITEMS_ARE_SET_AND_APPENDED);
    scripts(rt, MEMBERS_ARE_SET_AND_MADE);
    scripts(rt, STEPS_BEFORE_THE_LAST_MUST_BE_THERE);
    scripts(rt, ROOTS_THAT_ARE_NOT_THERE);
    scripts(rt, INDICES_COME_FIRST_AND_THE_WALK_LAST);
    scripts(rt, TARGETS_ARE_ADDED_TO);
}
