//! The names of parents.
use datasets::parent_of;

/// Names, each with that of its parent, if it has one.
const NAMES: [(&str, Option<&str>); 4] = [
    ("p", None),
    ("p/a", Some("p")),
    ("p/a/b", Some("p/a")),
    ("p/a.b/c", Some("p/a.b")),
];

#[test]
fn a_name_tells_its_parents(rt: HostRuntime) {
    for (name, parent) in NAMES.iter() {
        let told = parent_of(name.as_bytes());
        assert!(rt; told == parent.map(str::as_bytes));
    }
}
