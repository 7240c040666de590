// Expressions and conditions as they are read with two registers.
use crate::cases::{condition_place, place};

// Leaves of an expression as they are read with two registers.
pub(crate) fn leaves(rt: HostRuntime) {
    place(rt, "constant", b"\x10\x00\x00\x00\x07");
    place(rt, "constant cut short", b"\x10\x00\x00\x00");
    place(rt, "register 1 of 2", b"\x11\x01");
    place(rt, "register 2 of 2", b"\x11\x02");
    place(rt, "register without its number", b"\x11");
    place(rt, "no bytes", b"");
    place(rt, "code 15", b"\x0f");
    place(rt, "code 22", b"\x16");
}

// Operands missing, of the wrong kind and left over, and nesting.
pub(crate) fn operands(rt: HostRuntime) {
    place(rt, "a condition for an operand", b"\x20");
    place(rt, "plus without its right operand", b"\x12\x11\x00");
    place(
        rt,
        "left register absent, right cut short",
        b"\x12\x11\x05\x10\x00",
    );
    place(
        rt,
        "left unknown, right register absent",
        b"\x12\x16\x11\x05",
    );
    place(rt, "one byte left over", b"\x11\x00\x00");
    place(
        rt,
        "twelve deep",
        b"\x12\x12\x12\x12\x12\x12\x12\x12\x12\x12\x12\x11\x00\x11\x00\x11\x00\x11\x00\x11\x00\x11\x00\x11\x00\x11\x00\x11\x00\x11\x00\x11\x00\x11\x00",
    );
    place(
        rt,
        "thirteen deep",
        b"\x12\x12\x12\x12\x12\x12\x12\x12\x12\x12\x12\x12\x11\x00\x11\x00\x11\x00\x11\x00\x11\x00\x11\x00\x11\x00\x11\x00\x11\x00\x11\x00\x11\x00\x11\x00\x11\x00",
    );
    place(
        rt,
        "register absent thirteen deep",
        b"\x12\x12\x12\x12\x12\x12\x12\x12\x12\x12\x12\x12\x11\x09\x11\x00\x11\x00\x11\x00\x11\x00\x11\x00\x11\x00\x11\x00\x11\x00\x11\x00\x11\x00\x11\x00\x11\x00",
    );
}

// Conditions as they are read with two registers.
pub(crate) fn condition_codes(rt: HostRuntime) {
    condition_place(rt, "true", b"\x20");
    condition_place(rt, "false", b"\x21");
    condition_place(rt, "an operand for a condition", b"\x10\x00\x00\x00\x01");
    condition_place(rt, "code 31", b"\x1f");
    condition_place(rt, "code 38", b"\x26");
    condition_place(rt, "not without its operand", b"\x22");
    condition_place(rt, "and without its right operand", b"\x23\x20");
    condition_place(rt, "r0 == r1", b"\x24\x11\x00\x11\x01");
}

// Operands of conditions, bytes left over, and nesting.
pub(crate) fn condition_operands(rt: HostRuntime) {
    condition_place(rt, "r0 < r7 of 2", b"\x25\x11\x00\x11\x07");
    condition_place(rt, "r7 < r0 of 2", b"\x25\x11\x07\x11\x00");
    condition_place(rt, "r0 < a condition", b"\x25\x11\x00\x20");
    condition_place(rt, "true and one byte left over", b"\x20\x20");
    condition_place(
        rt,
        "twelve deep",
        b"\x22\x22\x22\x22\x22\x22\x22\x22\x22\x22\x22\x20",
    );
    condition_place(
        rt,
        "thirteen deep",
        b"\x22\x22\x22\x22\x22\x22\x22\x22\x22\x22\x22\x22\x20",
    );
    condition_place(
        rt,
        "r0 < r1 twelve deep",
        b"\x22\x22\x22\x22\x22\x22\x22\x22\x22\x22\x25\x11\x00\x11\x01",
    );
    condition_place(
        rt,
        "r0 < r1 thirteen deep",
        b"\x22\x22\x22\x22\x22\x22\x22\x22\x22\x22\x22\x25\x11\x00\x11\x01",
    );
}
