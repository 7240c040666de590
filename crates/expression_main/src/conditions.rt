// Conditions branched on.
use crate::cases::on;

// H's figures, a register beside a constant, true and false.
pub(crate) fn simple_conditions(rt: HostRuntime) {
    let cases = on(rt, (3, 4), (0, 0));
    cases.branch("r0 == r0", b"\x24\x11\x00\x11\x00");
    cases.branch("r0 < r0", b"\x25\x11\x00\x11\x00");
    let cases = on(rt, (0, 9), (0, 0));
    cases.branch("r0 < 5", b"\x25\x11\x00\x10\x00\x00\x00\x05");
    cases.branch("5 < r0", b"\x25\x10\x00\x00\x00\x05\x11\x00");
    cases.branch("true", b"\x20");
    cases.branch("false", b"\x21");
    cases.branch("!true", b"\x22\x20");
}

// Comparisons of a register with one value, and of two registers.
pub(crate) fn comparisons(rt: HostRuntime) {
    on(rt, (0, 9), (0, 0)).branch("r0 == 3", b"\x24\x11\x00\x10\x00\x00\x00\x03");
    on(rt, (3, 3), (0, 0)).branch("r0 == 3", b"\x24\x11\x00\x10\x00\x00\x00\x03");
    on(rt, (0, 5), (3, 9)).branch("r0 == r1", b"\x24\x11\x00\x11\x01");
    on(rt, (0, 2), (5, 6)).branch("r0 == r1", b"\x24\x11\x00\x11\x01");
    let cases = on(rt, (0, 9), (2, 5));
    cases.branch("r0 < r1", b"\x25\x11\x00\x11\x01");
    cases.branch("r1 < r0", b"\x25\x11\x01\x11\x00");
    on(rt, (5, 9), (0, 5)).branch("r0 < r1", b"\x25\x11\x00\x11\x01");
}

// Negation and "and".
pub(crate) fn conjunctions(rt: HostRuntime) {
    let cases = on(rt, (0, 9), (0, 0));
    cases.branch(
        "r0 < 5 && 2 < r0",
        b"\x23\x25\x11\x00\x10\x00\x00\x00\x05\x25\x10\x00\x00\x00\x02\x11\x00",
    );
    cases.branch(
        "!(r0 < 5 && 2 < r0)",
        b"\x22\x23\x25\x11\x00\x10\x00\x00\x00\x05\x25\x10\x00\x00\x00\x02\x11\x00",
    );
    cases.branch(
        "r0 < 5 && r0 < 5",
        b"\x23\x25\x11\x00\x10\x00\x00\x00\x05\x25\x11\x00\x10\x00\x00\x00\x05",
    );
    cases.branch(
        "false && r0 < 5",
        b"\x23\x21\x25\x11\x00\x10\x00\x00\x00\x05",
    );
    cases.branch(
        "true && r0 < 5",
        b"\x23\x20\x25\x11\x00\x10\x00\x00\x00\x05",
    );
    cases.branch("true && true", b"\x23\x20\x20");
    let cases = on(rt, (0, 9), (0, 9));
    cases.branch(
        "r0 == 3 && r1 < r0",
        b"\x23\x24\x11\x00\x10\x00\x00\x00\x03\x25\x11\x01\x11\x00",
    );
    cases.branch(
        "r0 < 5 && r1 < r0",
        b"\x23\x25\x11\x00\x10\x00\x00\x00\x05\x25\x11\x01\x11\x00",
    );
}

// Every part is worked out on the registers before narrowing.
pub(crate) fn faults(rt: HostRuntime) {
    let cases = on(rt, (-1, 1), (0, 0));
    cases.branch(
        "10 / r0 == 1",
        b"\x24\x15\x10\x00\x00\x00\x0a\x11\x00\x10\x00\x00\x00\x01",
    );
    cases.branch(
        "1 == 10 / r0",
        b"\x24\x10\x00\x00\x00\x01\x15\x10\x00\x00\x00\x0a\x11\x00",
    );
    on(rt, (0, 1), (0, 0)).branch(
        "false && 10 / r0 < 1",
        b"\x23\x21\x25\x15\x10\x00\x00\x00\x0a\x11\x00\x10\x00\x00\x00\x01",
    );
    on(rt, (0, 9), (0, 0)).branch(
        "1 < r0 && 10 / r0 < 20",
        b"\x23\x25\x10\x00\x00\x00\x01\x11\x00\x25\x15\x10\x00\x00\x00\x0a\x11\x00\x10\x00\x00\x00\x14",
    );
    on(rt, (0, 1), (0, 0)).branch(
        "!(10 / r0 < 1)",
        b"\x22\x25\x15\x10\x00\x00\x00\x0a\x11\x00\x10\x00\x00\x00\x01",
    );
}

// A side that is no register is not narrowed; the ends of the 32-bit values.
pub(crate) fn sides(rt: HostRuntime) {
    on(rt, (0, 9), (0, 0)).branch(
        "r0 + 1 < 5",
        b"\x25\x12\x11\x00\x10\x00\x00\x00\x01\x10\x00\x00\x00\x05",
    );
    on(rt, (-2147483648, 0), (0, 0)).branch("r0 < lowest", b"\x25\x11\x00\x10\x80\x00\x00\x00");
    on(rt, (0, 2147483647), (0, 0)).branch("greatest < r0", b"\x25\x10\x7f\xff\xff\xff\x11\x00");
    on(rt, (-2147483648, 2147483647), (0, 0)).branch(
        "r0 < greatest",
        b"\x25\x11\x00\x10\x7f\xff\xff\xff",
    );
}
