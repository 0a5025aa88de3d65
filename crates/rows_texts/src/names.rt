//! The order of names, and their children.
use bc_names::Name;
use std::cmp::Ordering;

#[test]
fn a_beginning_comes_before_what_goes_on(rt: HostRuntime) {
    let ascending: [&[u8]; 8] = [
        b"F".as_slice(),
        b"f".as_slice(),
        b"f/0".as_slice(),
        b"f/0/5".as_slice(),
        b"f/2".as_slice(),
        b"f/10".as_slice(),
        b"f0".as_slice(),
        b"ff".as_slice(),
    ];
    for pair in ascending.windows(2) {
        let (Some(low), Some(high)) = (Name::read(pair[0]), Name::read(pair[1])) else {
            assert!(rt; false, "these are names");
            return;
        };
        assert!(rt; low < high);
        assert_eq!(rt; low.cmp(&high), Ordering::Less);
        assert!(rt; low != high);
    }
}

#[test]
fn a_child_has_one_segment_more(rt: HostRuntime) {
    let Some(mut name) = Name::read(b"f") else {
        assert!(rt; false, "f is a name");
        return;
    };
    assert!(rt; name.child(64).is_none());
    for number in 57..64u8 {
        let Some(child) = name.child(number) else {
            assert!(rt; false, "seven segments fit");
            return;
        };
        assert_eq!(rt; child.segments().last().copied(), Some(number));
        name = child;
    }
    assert_eq!(rt; name.root_str(), "f");
    assert_eq!(rt; name.root(), b"f".as_slice());
    assert!(rt; name.child(0).is_none());
}
