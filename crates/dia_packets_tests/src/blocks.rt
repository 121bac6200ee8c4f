//! Packets of pcapng files.

use crate::packets::{SECOND, Wanted, has, whole};
use crate::rows::{
    NG_CUT, NG_EMPTY, NG_ENDS, NG_LITTLE, NG_OBSOLETE, NG_OFFSET, NG_SECTIONS, NG_SIMPLE,
    NG_STRANGER,
};
use dia_packets::Cause;

#[test]
fn times(rt: HostRuntime) {
    has(
        &rt,
        NG_LITTLE,
        &[whole(100 * SECOND, 40), whole(101 * SECOND + 1000, 60)],
        None,
    );
    has(&rt, NG_OFFSET, &[whole(1005 * SECOND + 7, 68)], None);
}

#[test]
fn sections(rt: HostRuntime) {
    let first = Wanted {
        time: Some(0),
        link: 1,
        kept: 54,
        size: 54,
    };
    has(&rt, NG_SECTIONS, &[first, whole(SECOND, 60)], None);
}

#[test]
fn each_block(rt: HostRuntime) {
    let without_time = Wanted {
        time: None,
        link: 101,
        kept: 68,
        size: 68,
    };
    has(&rt, NG_SIMPLE, &[without_time], None);
    has(&rt, NG_OBSOLETE, &[whole(SECOND, 68)], None);
}

#[test]
fn cut_by_the_snap_length(rt: HostRuntime) {
    let cut = Wanted {
        time: Some(0),
        link: 101,
        kept: 68,
        size: 80,
    };
    has(&rt, NG_CUT, &[cut, whole(SECOND, 68)], None);
}

#[test]
fn refusals(rt: HostRuntime) {
    has(&rt, NG_ENDS, &[], Some((Cause::Length, 48)));
    has(&rt, NG_STRANGER, &[], Some((Cause::Interface, 28)));
    has(&rt, NG_EMPTY, &[], None);
}
