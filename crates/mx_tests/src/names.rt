//! Names of files.
use mx_outside::is_file_name;

const NAMES: [&str; 10] = [
    "model.mx",
    "p/model.mx",
    "p/q/table_mort.csv",
    "-",
    "_.-",
    "...",
    ".git",
    "a/..b",
    "9",
    "A-z_0.9",
];

const OTHERS: [&str; 13] = [
    "",
    ".",
    "..",
    "/",
    "a/",
    "/a",
    "a//b",
    "a/../b",
    "./a",
    "a/.",
    "a b",
    "a\\b",
    "caf\u{e9}",
];

/// How many of these are names of files.
fn count_names(rows: &[&str]) -> usize {
    let mut count: usize = 0;
    for name in rows {
        if is_file_name(name) {
            count = count.saturating_add(1);
        }
    }
    count
}

#[test]
fn parts_joined_by_slashes_are_names(rt: HostRuntime) {
    assert_eq!(rt; count_names(&NAMES), NAMES.len());
}

#[test]
fn empty_parts_folders_and_other_bytes_are_none(rt: HostRuntime) {
    assert_eq!(rt; count_names(&OTHERS), 0);
}

#[test]
fn a_name_has_at_most_255_bytes(rt: HostRuntime) {
    let mut name = String::new(rt.alloc());
    for _ in 0..255 {
        name.push_str("a").expect(&rt, "memory");
    }
    assert!(rt; is_file_name(name.as_str()));
    name.push_str("a").expect(&rt, "memory");
    assert!(rt; !is_file_name(name.as_str()));
}
