// Writing: bytes are put where the output has room, and places are counted up to a bound that is past it. `put` and `put_bytes` are not
// those of `writing`: there a place stops one past the end, here it is counted on. The output and the place stay apart, since each call
// has another place: a struct would be made anew at each. `as` where the number is known to fit: `try_from` would give an `Err` that cannot
// come.
ghost use Rattle.std.specs.Prelude.{◌≡◌, ◌∷◌, ◌+◌, ◌≤◌, ◌<◌, min, length, reverse, set};
ghost use Rattle.std.proofs.lemmas.List.Edits.{sets};
ghost use Rattle.rules.specs.Encoding.{two, four};
ghost use Rattle.scan.specs.Writing.{inserted};

// A place past every output's end.
const FAR: usize = 65536;

// The place k bytes further on, up to the bound.
pub fn past(at: usize, k: usize) -> usize
    requires { (at ≤ 65536) × (k ≤ 65536) }
    ensures { result ≡ min (at + k) 65536 }
{
    (at + k).min(FAR)
}

// One byte, if there is room for it.
pub fn put(out: &mut [u8], at: usize, b: u8)
    ensures { out.new ≡ set out.old at b }
{
    if at < out.len() {
        out[at] = b;
    }
}

// Bytes one behind the other, as far as there is room for them.
#[tactic(auto, using(crate::proofs::WriteLaws::puts_on, crate::proofs::WordLaws::over))]
pub fn put_bytes(out: &mut [u8], at: usize, bytes: &[u8])
    requires { (at ≤ 70000) × (length bytes.now ≤ 70000) }
    ensures { out.new ≡ sets out.old at bytes.now }
{
    for (k, b) in bytes.iter().enumerate() {
        put(out, at + k, *b);
    }
}

// A number of two bytes.
pub fn put_two(out: &mut [u8], at: usize, v: u64)
    requires { (at ≤ 70000) × (v < 65536) }
    ensures { out.new ≡ sets out.old at (two v) }
{
    put_bytes(out, at, &(v as u16).to_be_bytes());
}

// A number of four bytes.
pub fn put_four(out: &mut [u8], at: usize, v: u64)
    requires { (at ≤ 65600) × (v < 4294967296) }
    ensures { out.new ≡ sets out.old at (four v) }
{
    put_bytes(out, at, &(v as u32).to_be_bytes());
}

// A constant: its code, and the 32 bits of its value. The code is the sheet's own byte, written as it is: an enum would only be turned back
// into it.
pub fn put_constant(out: &mut [u8], at: usize, v: u64)
    requires { (at ≤ 65536) × (v < 4294967296) }
    ensures { out.new ≡ sets out.old at (16 ∷ four v) }
{
    put(out, at, 16);
    put_four(out, at + 1, v);
}

// The codes are put before what stands from at to end, the last of them first, if there is room; where what is written ends then.
pub fn insert(out: &mut [u8], at: usize, end: usize, codes: &[u8]) -> usize
    requires { (at ≤ end) × (end ≤ 65536) × (length codes.now ≤ 65536) }
    ensures inserts { out.new ≡ inserted out.old at end (reverse codes.now) }
    ensures ends { result ≡ min (end + length codes.now) 65536 }
{
    let count = codes.len();
    if 0 < count && end + count <= out.len() {
        out.copy_within(at..end, at + count);
        let gap = &mut out[at..at + count];
        gap.copy_from_slice(codes);
        gap.reverse();
    }
    past(end, count)
}
