// Products: register 0 times register 1. Where all four ends are values of 16 bits, -32768..32767, they are formed in 32 bits.
use crate::cases::on;

fn multiplied(rt: HostRuntime, factor: (i32, i32), other: (i32, i32)) {
    on(rt, factor, other).value("r0 * r1", b"\x14\x11\x00\x11\x01");
}

// The four corners of the 16-bit values; one past each; products that just fit 32 bits or would wrap; the ends of the 32-bit values.
pub(crate) fn values(rt: HostRuntime) {
    for (factor, other) in [
        (-32768, -32768),
        (-32768, 32767),
        (32767, -32768),
        (32767, 32767),
        (-32769, -32769),
        (-32769, 32768),
        (32768, -32769),
        (32768, 32768),
        (46340, 46340),
        (46341, 46341),
        (-46341, 46340),
        (-46341, 46341),
        (-65536, 32768),
        (32768, -65536),
        (65536, 32767),
        (65536, 32768),
        (-65536, -32768),
        (65535, 65535),
        (-65536, 65536),
        (65536, 65536),
        (-2147483648, 1),
        (-2147483648, -1),
        (2147483647, -1),
        (2147483647, 0),
    ] {
        multiplied(rt, (factor, factor), (other, other));
    }
}

// Each corner the least or the greatest; all 16-bit values by all of them; one end of the four moved out, until a product would wrap;
// both factors out; low above high.
pub(crate) fn spans(rt: HostRuntime) {
    for (factor, other) in [
        ((5, 10), (-3, 2)),
        ((-10, -5), (-3, 2)),
        ((-32768, 32767), (-32768, 32767)),
        ((-32769, 32767), (-32768, 32767)),
        ((-32768, 32768), (-32768, 32767)),
        ((-32768, 32767), (-32769, 32767)),
        ((-32768, 32767), (-32768, 32768)),
        ((-65536, 32767), (-32767, 32767)),
        ((-32767, 32767), (-32767, 65536)),
        ((-65536, 32767), (-32768, 32767)),
        ((-32768, 32767), (-32768, 65536)),
        ((-32768, 65537), (-32768, 32767)),
        ((-32768, 32767), (-65536, 32767)),
        ((-32768, 32767), (-32768, 65537)),
        ((-65536, 65536), (-65536, 65536)),
        ((3, 65536), (5, 65536)),
        ((-46341, 46340), (-46340, 46340)),
        ((-46341, 46341), (-46341, 46341)),
        ((32767, -32768), (2, 3)),
        ((5, -65536), (-32768, -32768)),
        ((-32768, -32768), (5, -65536)),
    ] {
        multiplied(rt, factor, other);
    }
}
