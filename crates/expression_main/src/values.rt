// Expressions evaluated: G's figures, the operators, the ends of the 32-bit values.
use crate::cases::on;

// G's figures.
pub(crate) fn figures(rt: HostRuntime) {
    on(rt, (-1, 1), (0, 0)).value("10 / r0", b"\x15\x10\x00\x00\x00\x0a\x11\x00");
    on(rt, (1, 5), (0, 0)).value("10 / r0", b"\x15\x10\x00\x00\x00\x0a\x11\x00");
    let cases = on(rt, (0, 0), (0, 0));
    cases.value("-7 / 2", b"\x15\x10\xff\xff\xff\xf9\x10\x00\x00\x00\x02");
    cases.value(
        "lowest / -1",
        b"\x15\x10\x80\x00\x00\x00\x10\xff\xff\xff\xff",
    );
}

// Sums, differences and products, in both orders of operands.
pub(crate) fn sums_and_products(rt: HostRuntime) {
    let cases = on(rt, (1, 2), (10, 20));
    cases.value("r0 + r1", b"\x12\x11\x00\x11\x01");
    cases.value("r0 - r1", b"\x13\x11\x00\x11\x01");
    cases.value("r1 - r0", b"\x13\x11\x01\x11\x00");
    on(rt, (1, 2), (0, 0)).value("r0 - r0", b"\x13\x11\x00\x11\x00");
    on(rt, (-3, 2), (-5, 4)).value("r0 * r1", b"\x14\x11\x00\x11\x01");
    on(rt, (-3, -2), (4, 5)).value("r0 * r1", b"\x14\x11\x00\x11\x01");
}

// The ends of the 32-bit values.
pub(crate) fn extremes(rt: HostRuntime) {
    let cases = on(rt, (0, 0), (0, 0));
    cases.value(
        "greatest + 1",
        b"\x12\x10\x7f\xff\xff\xff\x10\x00\x00\x00\x01",
    );
    cases.value(
        "greatest + 0",
        b"\x12\x10\x7f\xff\xff\xff\x10\x00\x00\x00\x00",
    );
    cases.value(
        "lowest - 1",
        b"\x13\x10\x80\x00\x00\x00\x10\x00\x00\x00\x01",
    );
    cases.value(
        "-1 - greatest",
        b"\x13\x10\xff\xff\xff\xff\x10\x7f\xff\xff\xff",
    );
    cases.value(
        "lowest * -1",
        b"\x14\x10\x80\x00\x00\x00\x10\xff\xff\xff\xff",
    );
    cases.value(
        "65536 * 32768",
        b"\x14\x10\x00\x01\x00\x00\x10\x00\x00\x80\x00",
    );
    cases.value(
        "65536 * -32768",
        b"\x14\x10\x00\x01\x00\x00\x10\xff\xff\x80\x00",
    );
    cases.value(
        "lowest / 1",
        b"\x15\x10\x80\x00\x00\x00\x10\x00\x00\x00\x01",
    );
}

// Every operator is held to the 32-bit values, not only the whole.
pub(crate) fn nested(rt: HostRuntime) {
    on(rt, (1, 2), (10, 20)).value(
        "2 * r0 + r1 / 3",
        b"\x12\x14\x10\x00\x00\x00\x02\x11\x00\x15\x11\x01\x10\x00\x00\x00\x03",
    );
    on(rt, (0, 0), (0, 0)).value(
        "(greatest + 1) - (greatest + 1)",
        b"\x13\x12\x10\x7f\xff\xff\xff\x10\x00\x00\x00\x01\x12\x10\x7f\xff\xff\xff\x10\x00\x00\x00\x01",
    );
    on(rt, (1, 2), (0, 0)).value(
        "1 / (r0 - r0)",
        b"\x15\x10\x00\x00\x00\x01\x13\x11\x00\x11\x00",
    );
}
