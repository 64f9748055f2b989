//! ORDER BY over each arrangement of rows whose keys are of many kinds.
use command_calls::ends_with;
use snel_device::MemFiles;
use std::alloc::{AllocError, Global};
use std::random::RandomSource;
use std::test::Fail;
use std::thread::Threads;

// Rows whose first keys are MISSING, NULL and numbers, and whose second keys are of five kinds.
static LINES: [&str; 5] = [
    "{\"id\":0,\"b\":true}\n",
    "{\"id\":1,\"a\":null,\"b\":\"x\"}\n",
    "{\"id\":2,\"a\":null,\"b\":7}\n",
    "{\"id\":3,\"a\":2}\n",
    "{\"id\":4,\"a\":2,\"b\":[1]}\n",
];

// Queries under each pair of directions, some of which cut the rows, and the rows that they give.
static SORTED: [(&str, &str); 8] = [
    (
        "SELECT id FROM logs ORDER BY a, b",
        "{\"id\":0}\n{\"id\":2}\n{\"id\":1}\n{\"id\":3}\n{\"id\":4}\n",
    ),
    (
        "SELECT id FROM logs ORDER BY a, b DESC",
        "{\"id\":0}\n{\"id\":1}\n{\"id\":2}\n{\"id\":4}\n{\"id\":3}\n",
    ),
    (
        "SELECT id FROM logs ORDER BY a DESC, b",
        "{\"id\":3}\n{\"id\":4}\n{\"id\":2}\n{\"id\":1}\n{\"id\":0}\n",
    ),
    (
        "SELECT id FROM logs ORDER BY a DESC, b DESC",
        "{\"id\":4}\n{\"id\":3}\n{\"id\":1}\n{\"id\":2}\n{\"id\":0}\n",
    ),
    (
        "SELECT id FROM logs ORDER BY a, b LIMIT 2 OFFSET 1",
        "{\"id\":2}\n{\"id\":1}\n",
    ),
    (
        "SELECT id FROM logs ORDER BY a, b DESC LIMIT 1",
        "{\"id\":0}\n",
    ),
    (
        "SELECT id FROM logs ORDER BY a DESC, b LIMIT 3 OFFSET 3",
        "{\"id\":1}\n{\"id\":0}\n",
    ),
    (
        "SELECT id FROM logs ORDER BY a DESC, b DESC LIMIT 3",
        "{\"id\":4}\n{\"id\":3}\n{\"id\":1}\n",
    ),
];

// The digits of a number below 3,125 in base five, where all of them are different.
fn arrangement(number: u32) -> Option<[u32; 5]> {
    let places = [
        number % 5,
        number / 5 % 5,
        number / 25 % 5,
        number / 125 % 5,
        number / 625 % 5,
    ];
    let mut complete = true;
    for place in 0u32..5 {
        complete = complete && places.contains(&place);
    }
    if complete { Some(places) } else { None }
}

// The lines at these places, one behind the other.
fn lines_at(alloc: Global, places: &[u32]) -> Result<String, AllocError> {
    let mut lines = String::new(alloc);
    for place in places {
        if let Some(line) = LINES.get(*place as usize) {
            lines.push_str(line)?;
        }
    }
    Ok(lines)
}

// Whether each query gives its rows of these lines.
fn are_sorted<R: Threads + Sync + RandomSource + AllocGlobal>(rt: &R, lines: &str) -> bool {
    let Ok(mut files) = MemFiles::new(rt.alloc(), &[]) else {
        return false;
    };
    let packed = (0, b"rows 5, blocks 1, dropped 0\n".as_slice(), "");
    let pack = ["pack", "p"];
    let mut good = ends_with(rt, &pack, &mut files, (lines.as_bytes(), &[]), &[], packed);
    for (sql, rows) in &SORTED {
        let query = ["query", sql, "p"];
        let wanted = (0, rows.as_bytes(), "");
        good = good && ends_with(rt, &query, &mut files, (b"", &[]), &[], wanted);
    }
    good
}

#[test]
fn each_arrangement_is_sorted(rt: HostRuntime) -> Result<(), Fail> {
    let mut arrangements = 0u32;
    for number in 0u32..3125 {
        if let Some(places) = arrangement(number) {
            let lines = lines_at(rt.alloc(), &places)?;
            assert!(rt; are_sorted(&rt, lines.as_str()), "{places:?}");
            arrangements = arrangements.saturating_add(1);
        }
    }
    assert!(rt; arrangements == 120);
    Ok(())
}
