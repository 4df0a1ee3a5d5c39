// The application without cases, and what all applications use: identifiers, and what is seen of a name.

use crate::texts::{names_cases, reads_back, refuses, starts, takes_steps, tells_apart};
use app_interface::{Idle, Seen, is_id, read_id, seen_at};
use std::test::Fail;
use topology::NodeId;

#[test]
fn idles(rt: HostRuntime) -> Result<(), Fail> {
    names_cases::<Idle>(&rt, 0, &[(1, None, None)]);
    starts::<Idle>(&rt, rt.alloc(), ["-", "-", "-"])?;
    takes_steps::<Idle>(&rt, rt.alloc(), &[(7, 1, None, "-", None, "")])?;
    tells_apart::<Idle>(&rt, rt.alloc(), "-", &[("-", true)])?;
    reads_back::<Idle>(&rt, rt.alloc(), &["-"])
}

#[test]
fn reads_a_dash_alone(rt: HostRuntime) {
    let texts = ["", "--", " -", "- ", "-\n", "0", "hold/-/-"];
    refuses::<Idle>(&rt, rt.alloc(), &texts);
}

#[test]
fn sees_the_first_of_a_name(rt: HostRuntime) {
    let (one, two, three) = (1, 2, 3);
    let near = [
        Seen { id: 4, local: &one },
        Seen { id: 9, local: &two },
        Seen {
            id: 4,
            local: &three,
        },
    ];
    assert_eq!(rt; seen_at(4, &near), Some(&one));
    assert_eq!(rt; seen_at(9, &near), Some(&two));
    assert_eq!(rt; seen_at(5, &near), None);
}

#[test]
fn reads_identifiers(rt: HostRuntime) {
    for (text, number) in [
        (b"1".as_slice(), 1),
        (b"10".as_slice(), 10),
        (b"65535".as_slice(), 65535),
    ] {
        assert!(rt; is_id(number));
        assert_eq!(rt; read_id(text), NodeId::new(number));
    }
    for number in [0, 65536, u32::MAX] {
        assert!(rt; !is_id(number));
    }
    for text in [
        b"".as_slice(),
        b"0".as_slice(),
        b"01".as_slice(),
        b"65536".as_slice(),
        b"4294967297".as_slice(),
        b"+1".as_slice(),
        b"1 ".as_slice(),
        b"1\xff".as_slice(),
    ] {
        assert_eq!(rt; read_id(text), None);
    }
}
