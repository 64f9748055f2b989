use crate::line_tests::{finished, is_line};
use json_out::LineMaker;
use log_rows::LogRows;
use snel_values::{Bytes, Value};
use std::alloc::Global;

// The line of an output that is the row.
fn row_line(alloc: Global, row: &Value) -> Option<Bytes> {
    match LineMaker::new(alloc) {
        Ok(mut maker) => {
            let whole = LineMaker::takes(row) && maker.put_value("row", row).is_ok();
            finished(maker, whole)
        }
        Err(_) => None,
    }
}

// Whether the log that starts from this number has these rows first.
fn has_rows(alloc: Global, start: u64, wanted: &[&str; 6]) -> bool {
    let mut log = LogRows::new(start);
    for line in wanted {
        let row = match log.next_row(alloc) {
            Ok(row) => row,
            Err(_) => return false,
        };
        let same = is_line(row_line(alloc, &row), line);
        drop(row);
        if !same {
            return false;
        }
    }
    true
}

// Starts, and the first rows, computed by hand from the generator's rule: the fourth has no status, and that of the sixth
// is NULL.
static LOGS: [(u64, [&str; 6]); 2] = [
    (
        0,
        [
            "{\"row\":{\"agent\":\"Mozilla/5.0\",\"bytes\":31614,\"path\":\"/p25\",\"status\":301,\"time\":\"2023-11-14T22:13:20Z\"}}\n",
            "{\"row\":{\"agent\":\"Mozilla/5.0\",\"bytes\":60945,\"path\":\"/p14\",\"status\":200,\"time\":\"2023-11-14T22:13:21Z\"}}\n",
            "{\"row\":{\"agent\":\"Mozilla/5.0\",\"bytes\":30754,\"path\":\"/p20\",\"status\":200,\"time\":\"2023-11-14T22:13:22Z\"}}\n",
            "{\"row\":{\"agent\":\"bot\",\"bytes\":6889,\"path\":\"/p44\",\"time\":\"2023-11-14T22:13:23Z\"}}\n",
            "{\"row\":{\"agent\":\"bot\",\"bytes\":19674,\"path\":\"/p41\",\"status\":404,\"time\":\"2023-11-14T22:13:24Z\"}}\n",
            "{\"row\":{\"agent\":\"curl/8.0\",\"bytes\":32566,\"path\":\"/p6\",\"status\":null,\"time\":\"2023-11-14T22:13:25Z\"}}\n",
        ],
    ),
    (
        u64::MAX,
        [
            "{\"row\":{\"agent\":\"app/2.1\",\"bytes\":34641,\"path\":\"/p1\",\"status\":204,\"time\":\"2023-11-14T22:13:20Z\"}}\n",
            "{\"row\":{\"agent\":\"app/2.1\",\"bytes\":21871,\"path\":\"/p31\",\"status\":500,\"time\":\"2023-11-14T22:13:21Z\"}}\n",
            "{\"row\":{\"agent\":\"curl/8.0\",\"bytes\":3755,\"path\":\"/p0\",\"status\":200,\"time\":\"2023-11-14T22:13:22Z\"}}\n",
            "{\"row\":{\"agent\":\"bot\",\"bytes\":57349,\"path\":\"/p46\",\"time\":\"2023-11-14T22:13:23Z\"}}\n",
            "{\"row\":{\"agent\":\"app/2.1\",\"bytes\":8960,\"path\":\"/p38\",\"status\":301,\"time\":\"2023-11-14T22:13:24Z\"}}\n",
            "{\"row\":{\"agent\":\"Mozilla/5.0\",\"bytes\":31878,\"path\":\"/p11\",\"status\":null,\"time\":\"2023-11-14T22:13:25Z\"}}\n",
        ],
    ),
];

#[test]
fn logs_begin_with_their_rows(rt: HostRuntime) {
    for (start, rows) in &LOGS {
        assert!(rt; has_rows(rt.alloc(), *start, rows), "{start}");
    }
}
