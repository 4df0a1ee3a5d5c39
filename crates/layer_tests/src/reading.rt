// Sets of cases, and what is read of numbers and lists.

ghost use Rattle.std.specs.Char.{digit_value};
ghost use Rattle.std.specs.Prelude.{◌≤◌};

use crate::assert_equal;
use action_tables::{CaseSet, cut, read_number, split_number};
use std::process::Abort;

fn holds_3_5_and_16_alone(rt: &impl Abort, set: CaseSet) {
    for case in 0..=255 {
        assert_equal(rt, set.has(case), case == 3 || case == 5 || case == 16);
    }
}

#[test]
fn holds_its_cases(rt: HostRuntime) {
    let set = CaseSet::empty()
        .with(16)
        .with(3)
        .with_if(5, true)
        .with_if(4, false);
    assert_equal(&rt, set.first(), Some(3));
    assert_equal(&rt, set.count(), 3);
    holds_3_5_and_16_alone(&rt, set);
    assert_equal(&rt, CaseSet::empty().first(), None);
    assert_equal(&rt, set, CaseSet::empty().with(3).with(5).with(16));
    set.lemma_is_listed();
}

fn reads(rt: &impl Abort, text: &[u8], number: u32) {
    assert_equal(rt, read_number(text), Some(number));
}

#[test]
fn reads_numbers(rt: HostRuntime) {
    reads(&rt, b"0", 0);
    reads(&rt, b"10", 10);
    reads(&rt, b"4294967295", u32::MAX);
}

fn splits(rt: &impl Abort, text: &[u8], end: u8, number: u32, rest: &[u8])
    requires { 10 ≤ digit_value end }
{
    assert_equal(rt, split_number(text, end), Some((number, rest)));
}

fn splits_nothing_off(rt: &impl Abort, text: &[u8], end: u8)
    requires { 10 ≤ digit_value end }
{
    assert_equal(rt, split_number(text, end), None);
}

#[test]
fn splits_numbers_off(rt: HostRuntime) {
    splits(&rt, b"4294967295 1", b' ', 4_294_967_295, b"1");
    splits_nothing_off(&rt, b"4294967296 1", b' ');
    splits_nothing_off(&rt, b"42949672950 1", b' ');
    splits(&rt, b"0 1", b' ', 0, b"1");
    splits_nothing_off(&rt, b"01 1", b' ');
    splits_nothing_off(&rt, b" 1", b' ');
    splits_nothing_off(&rt, b"7,1", b' ');
    splits_nothing_off(&rt, b"7", b' ');
    splits(&rt, b"12]\n", b']', 12, b"\n");
    splits_nothing_off(&rt, b"12,\n", b']');
}

fn cuts(rt: &impl Abort, text: &[u8], mark: u8, parts: Option<(&[u8], &[u8])>) {
    assert_equal(rt, cut(text, mark), parts);
}

#[test]
fn cuts_at_the_first(rt: HostRuntime) {
    cuts(&rt, b"1:0:1", b':', Some((b"1", b"0:1")));
    cuts(&rt, b",", b',', Some((b"", b"")));
    cuts(&rt, b"1:0", b',', None);
    cuts(&rt, b"", b',', None);
}
