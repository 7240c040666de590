// Quotients, which are rounded down: register 0 divided by register 1.
use crate::cases::on;

fn divided(rt: HostRuntime, dividend: (i32, i32), divisor: (i32, i32)) {
    on(rt, dividend, divisor).value("r0 / r1", b"\x15\x11\x00\x11\x01");
}

// Both signs of both, inexact and exact; then the ends of the 32-bit values.
pub(crate) fn values(rt: HostRuntime) {
    for (dividend, divisor) in [
        (7, 2),
        (-7, 2),
        (7, -2),
        (-7, -2),
        (8, 2),
        (-8, 2),
        (8, -2),
        (-8, -2),
        (0, 2),
        (0, -2),
        (-1, 2147483647),
        (1, -2147483648),
        (2147483647, -2147483648),
        (-2147483648, 2147483647),
        (-2147483648, -2147483648),
        (-2147483648, 3),
        (-2147483648, -3),
        (-2147483648, 1),
        (-2147483648, -1),
        (2147483647, -1),
        (2147483647, -2),
    ] {
        divided(rt, (dividend, dividend), (divisor, divisor));
    }
}

// The least and the greatest over the ends; a divisor that may be 0; the lowest value and -1 together.
pub(crate) fn spans(rt: HostRuntime) {
    for (dividend, divisor) in [
        ((-7, 7), (2, 3)),
        ((-7, 7), (-3, -2)),
        ((-7, -5), (2, 4)),
        ((5, 7), (-4, -2)),
        ((-7, -5), (-4, -2)),
        ((-1, 1), (3, 5)),
        ((1, 2), (0, 3)),
        ((1, 2), (-3, 0)),
        ((-2147483648, -1), (-2, -1)),
        ((-2147483648, -1), (-3, -2)),
        ((-2147483647, -1), (-2, -1)),
    ] {
        divided(rt, dividend, divisor);
    }
}
