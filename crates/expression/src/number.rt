// Numbers of the sheet: the high byte stands first.
ghost use Rattle.std.specs.Prelude.{◌≡◌, ◌+◌, ◌≤◌, length};
ghost use Rattle.rules.specs.Format.{num16, num32, int32};

use interval::Val;

pub fn num16_at(s: &[u8], p: usize) -> u16
    requires { p + 2 ≤ length s.now }
    ensures { result ≡ num16 s.now p }
{
    u16::from_be_bytes([s[p], s[p + 1]])
}

#[tactic(auto, unfolding(rules::specs::Format::num32))]
pub fn num32_at(s: &[u8], p: usize) -> u32
    requires { p + 4 ≤ length s.now }
    ensures { result ≡ num32 s.now p }
{
    u32::from_be_bytes([s[p], s[p + 1], s[p + 2], s[p + 3]])
}

// The bits of 32 as two's complement. Of `num32_at`, as the rules have it: `i32::from_be_bytes` would write its four bytes again.
#[tactic(auto, unfolding(rules::specs::Format::int32, rules::specs::Format::twos_complement))]
pub fn int32_at(s: &[u8], p: usize) -> Val
    requires { p + 4 ≤ length s.now }
    ensures { result.0 ≡ int32 s.now p }
{
    Val(num32_at(s, p).cast_signed())
}
