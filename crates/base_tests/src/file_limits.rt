//! How large a file the system allows, as its tables say it.

use file_disk::file_limit;

// Each table, and the limit that it says. The others are those of a system without a limit, and of what isn't such a table.
static TABLES: [(&str, Option<u64>); 6] = [
    (
        "Max cpu time  7  7  seconds\nMax file size             1048576              unlimited            bytes     \n",
        Some(1_048_576),
    ),
    (
        "Max file size             0                    0                    bytes     \n",
        Some(0),
    ),
    (
        "Max file size             unlimited            unlimited            bytes     \n",
        None,
    ),
    (
        "Max cpu time              7                    7                    seconds   \n",
        None,
    ),
    ("Max file size ", None),
    ("", None),
];

#[test]
fn limits_of_tables(rt: HostRuntime) {
    let wrong = TABLES
        .iter()
        .filter(|(table, limit)| file_limit(table) != *limit)
        .count();
    assert_eq!(rt; wrong, 0);
}
