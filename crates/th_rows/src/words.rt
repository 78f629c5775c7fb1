//! The arithmetic of words, against the RISC-V manual and sums by hand.

use th_word::{
    add, divide, divide_unsigned, extend_8, extend_12, extend_13, extend_16, extend_21, multiply,
    multiply_high, multiply_high_mixed, multiply_high_unsigned, remainder, remainder_unsigned,
    set_less, set_less_unsigned, shift_left, shift_right, shift_right_signed, sub,
};

#[test]
fn quotients(rt: HostRuntime) {
    for &(a, b, results) in &[
        (7, 0, [0xffff_ffff, 7]),
        (0x8000_0000, 0, [0xffff_ffff, 0x8000_0000]),
        (0x8000_0000, 0xffff_ffff, [0x8000_0000, 0]),
        (0x8000_0000, 1, [0x8000_0000, 0]),
        (0, 0xffff_ffff, [0, 0]),
        (0xffff_fff9, 2, [0xffff_fffd, 0xffff_ffff]),
        (7, 0xffff_fffe, [0xffff_fffd, 1]),
        (0xffff_fff9, 0xffff_fffe, [3, 0xffff_ffff]),
    ] {
        let found = [divide(a, b), remainder(a, b)];
        assert_eq!(rt; found, results, "{a:x} by {b:x}");
    }
}

#[test]
fn quotients_unsigned(rt: HostRuntime) {
    for &(a, b, results) in &[
        (0x8000_0000, 0, [0xffff_ffff, 0x8000_0000]),
        (0x8000_0000, 0xffff_ffff, [0, 0x8000_0000]),
        (0xffff_fff9, 2, [0x7fff_fffc, 1]),
        (0xffff_ffff, 0xffff_fffe, [1, 1]),
    ] {
        let found = [divide_unsigned(a, b), remainder_unsigned(a, b)];
        assert_eq!(rt; found, results, "{a:x} by {b:x}");
    }
}

#[test]
fn products(rt: HostRuntime) {
    for &(a, b, products) in &[
        (0xffff_ffff, 0xffff_ffff, [1, 0, 0xffff_ffff, 0xffff_fffe]),
        (
            0x8000_0000,
            0x8000_0000,
            [0, 0x4000_0000, 0xc000_0000, 0x4000_0000],
        ),
        (
            0x8000_0000,
            0x7fff_ffff,
            [0x8000_0000, 0xc000_0000, 0xc000_0000, 0x3fff_ffff],
        ),
        (
            0x7fff_ffff,
            0x7fff_ffff,
            [1, 0x3fff_ffff, 0x3fff_ffff, 0x3fff_ffff],
        ),
        (0xffff_ffff, 1, [0xffff_ffff, 0xffff_ffff, 0xffff_ffff, 0]),
        (
            0x8000_0000,
            0xffff_ffff,
            [0x8000_0000, 0, 0x8000_0000, 0x7fff_ffff],
        ),
        (1, 0xffff_ffff, [0xffff_ffff, 0xffff_ffff, 0, 0]),
    ] {
        let found = [
            multiply(a, b),
            multiply_high(a, b),
            multiply_high_mixed(a, b),
            multiply_high_unsigned(a, b),
        ];
        assert_eq!(rt; found, products, "{a:x} times {b:x}");
    }
}

#[test]
fn shifts(rt: HostRuntime) {
    for &(a, b, results) in &[
        (1, 31, [0x8000_0000, 0, 0]),
        (1, 33, [2, 0, 0]),
        (0xffff_ffff, 32, [0xffff_ffff, 0xffff_ffff, 0xffff_ffff]),
        (0x8000_0000, 31, [0, 1, 0xffff_ffff]),
        (0x8000_0000, 63, [0, 1, 0xffff_ffff]),
        (0x8000_0000, 35, [0, 0x1000_0000, 0xf000_0000]),
        (0x7fff_ffff, 31, [0x8000_0000, 0, 0]),
    ] {
        let found = [
            shift_left(a, b),
            shift_right(a, b),
            shift_right_signed(a, b),
        ];
        assert_eq!(rt; found, results, "{a:x} by {b}");
    }
}

#[test]
fn sums_and_order(rt: HostRuntime) {
    for &(a, b, results) in &[
        (0xffff_ffff, 1, [0, 0xffff_fffe, 1, 0]),
        (0, 1, [1, 0xffff_ffff, 1, 1]),
        (0x8000_0000, 0x7fff_ffff, [0xffff_ffff, 1, 1, 0]),
        (0, 0xffff_ffff, [0xffff_ffff, 1, 0, 1]),
        (5, 5, [10, 0, 0, 0]),
    ] {
        let found = [
            add(a, b),
            sub(a, b),
            set_less(a, b),
            set_less_unsigned(a, b),
        ];
        assert_eq!(rt; found, results, "{a:x} and {b:x}");
    }
}

#[test]
fn extensions(rt: HostRuntime) {
    let found = [
        extend_8(0x7f),
        extend_8(0x80),
        extend_12(0x7ff),
        extend_12(0x800),
    ];
    assert_eq!(rt; found, [0x7f, 0xffff_ff80, 0x7ff, 0xffff_f800]);
    let found = [
        extend_13(0xffe),
        extend_13(0x1ffe),
        extend_16(0x7fff),
        extend_16(0x8000),
    ];
    assert_eq!(rt; found, [0xffe, 0xffff_fffe, 0x7fff, 0xffff_8000]);
    let found = [extend_21(0xf_fffe), extend_21(0x10_0000)];
    assert_eq!(rt; found, [0xf_fffe, 0xfff0_0000]);
}
