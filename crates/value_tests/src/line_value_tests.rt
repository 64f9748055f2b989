use crate::line_tests::{finished, is_line};
use crate::sample::{Sample, made};
use json_out::LineMaker;
use snel_values::Bytes;
use std::alloc::Global;

// Adds a pair of the name and the value; whether it was added.
fn put(alloc: Global, maker: &mut LineMaker, name: &str, sample: &Sample) -> bool {
    let value = made(alloc, sample);
    let added = LineMaker::takes(&value) && maker.put_value(name, &value).is_ok();
    drop(value);
    added
}

fn put_all(alloc: Global, maker: &mut LineMaker, pairs: &[(&str, Sample)]) -> bool {
    let mut whole = true;
    for (name, sample) in pairs {
        whole = put(alloc, maker, name, sample) && whole;
    }
    whole
}

// The line of these pairs of names and values.
fn values_line(alloc: Global, pairs: &[(&str, Sample)]) -> Option<Bytes> {
    match LineMaker::new(alloc) {
        Ok(mut maker) => {
            let whole = put_all(alloc, &mut maker, pairs);
            finished(maker, whole)
        }
        Err(_) => None,
    }
}

// Names and values, and their lines: values of every kind, each control byte, and MISSING, which is left out.
static VALUES: [(&[(&str, Sample)], &str); 22] = [
    (&[("v", Sample::Missing)], "{}\n"),
    (&[("v", Sample::Null)], "{\"v\":null}\n"),
    (&[("v", Sample::Bool(true))], "{\"v\":true}\n"),
    (&[("v", Sample::Bool(false))], "{\"v\":false}\n"),
    (&[("v", Sample::Int(0))], "{\"v\":0}\n"),
    (&[("v", Sample::Int(-5))], "{\"v\":-5}\n"),
    (
        &[("v", Sample::Int(9_223_372_036_854_775_808))],
        "{\"v\":9223372036854775808}\n",
    ),
    (
        &[("v", Sample::Int(i128::MIN))],
        "{\"v\":-170141183460469231731687303715884105728}\n",
    ),
    (
        &[("v", Sample::Int(i128::MAX))],
        "{\"v\":170141183460469231731687303715884105727}\n",
    ),
    (
        &[("v", Sample::Time(-62_135_596_800_000_000))],
        "{\"v\":\"0001-01-01T00:00:00Z\"}\n",
    ),
    (
        &[("v", Sample::Time(-1))],
        "{\"v\":\"1969-12-31T23:59:59.999999Z\"}\n",
    ),
    (
        &[("v", Sample::Time(0))],
        "{\"v\":\"1970-01-01T00:00:00Z\"}\n",
    ),
    (
        &[("v", Sample::Time(1_709_164_800_000_007))],
        "{\"v\":\"2024-02-29T00:00:00.000007Z\"}\n",
    ),
    (
        &[("v", Sample::Time(253_402_300_799_999_999))],
        "{\"v\":\"9999-12-31T23:59:59.999999Z\"}\n",
    ),
    (&[("v", Sample::Text(""))], "{\"v\":\"\"}\n"),
    (
        &[("v", Sample::Text("é€😀/\u{7f}"))],
        "{\"v\":\"é€😀/\u{7f}\"}\n",
    ),
    (
        &[("v", Sample::Text("a\"b\\c"))],
        "{\"v\":\"a\\\"b\\\\c\"}\n",
    ),
    (
        &[("v", Sample::List(&[Sample::List(&[]), Sample::Text("[,]")]))],
        "{\"v\":[[],\"[,]\"]}\n",
    ),
    (
        &[(
            "v",
            Sample::Struct(&[("", Sample::Null), ("x", Sample::Bool(true))]),
        )],
        "{\"v\":{\"\":null,\"x\":true}}\n",
    ),
    (
        &[(
            "v",
            Sample::List(&[
                Sample::Struct(&[("a", Sample::Int(-2)), ("b", Sample::Struct(&[]))]),
                Sample::Null,
            ]),
        )],
        "{\"v\":[{\"a\":-2,\"b\":{}},null]}\n",
    ),
    (
        &[(
            "\0\u{1}\u{2}\u{3}\u{4}\u{5}\u{6}\u{7}\u{8}\t\n\u{b}\u{c}\r\u{e}\u{f}",
            Sample::Text(
                "\u{10}\u{11}\u{12}\u{13}\u{14}\u{15}\u{16}\u{17}\u{18}\u{19}\u{1a}\u{1b}\u{1c}\u{1d}\u{1e}\u{1f} ",
            ),
        )],
        "{\"\\u0000\\u0001\\u0002\\u0003\\u0004\\u0005\\u0006\\u0007\\b\\t\\n\\u000b\\f\\r\\u000e\\u000f\":\"\\u0010\\u0011\\u0012\\u0013\\u0014\\u0015\\u0016\\u0017\\u0018\\u0019\\u001a\\u001b\\u001c\\u001d\\u001e\\u001f \"}\n",
    ),
    (
        &[
            ("first", Sample::Missing),
            ("b", Sample::Int(1)),
            ("second", Sample::Missing),
            ("a", Sample::Null),
            ("a", Sample::Bool(true)),
            ("last", Sample::Missing),
        ],
        "{\"b\":1,\"a\":null,\"a\":true}\n",
    ),
];

#[test]
fn values_have_their_lines(rt: HostRuntime) {
    for (pairs, line) in &VALUES {
        assert!(rt; is_line(values_line(rt.alloc(), *pairs), line), "{line}");
    }
}

fn is_taken(alloc: Global, sample: &Sample) -> bool {
    let value = made(alloc, sample);
    let taken = LineMaker::takes(&value);
    drop(value);
    taken
}

// Values, and whether a line takes them.
static TAKEN: [(Sample, bool); 12] = [
    (Sample::Missing, true),
    (Sample::Null, true),
    (Sample::Int(i128::MIN), true),
    (Sample::Time(-62_135_596_800_000_000), true),
    (Sample::Time(-62_135_596_800_000_001), false),
    (Sample::Time(253_402_300_799_999_999), true),
    (Sample::Time(253_402_300_800_000_000), false),
    (Sample::List(&[Sample::Missing, Sample::Null]), false),
    (Sample::List(&[Sample::Null, Sample::Time(0)]), true),
    (
        Sample::Struct(&[("a", Sample::Null), ("b", Sample::Missing)]),
        false,
    ),
    (
        Sample::Struct(&[
            ("a", Sample::Null),
            ("b", Sample::List(&[Sample::Null, Sample::Missing])),
        ]),
        false,
    ),
    (
        Sample::Struct(&[
            (
                "a",
                Sample::List(&[Sample::Time(253_402_300_800_000_000), Sample::Null]),
            ),
            ("b", Sample::Null),
        ]),
        false,
    ),
];

#[test]
fn takes_what_a_line_can_show(rt: HostRuntime) {
    for (at, (sample, taken)) in TAKEN.iter().enumerate() {
        assert!(rt; is_taken(rt.alloc(), sample) == *taken, "{at}");
    }
}
