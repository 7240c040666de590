// Texts into a lent buffer, and numbers into a lent array. A writer is the buffer and a place in it, and gives the place behind what it
// wrote. What does not fit is not written, and the place is then one past the buffer's end, where every later writer leaves it.
//
// `out` and the place stay two parameters: a struct that holds the lent buffer would turn `out.old`, `out.new` of the clauses in ten
// crates into fields of two structs, which is no plainer. `as` stands where std has no `From`, and `try_from` would give an `Err`
// that cannot come.
#![tactic(auto)]

ghost use Rattle.std.specs.Prelude.{◌≡◌, [], ◌∷◌, ◌++◌, ◌+◌, ◌-◌, ◌*◌, ◌%◌, ◌<◌, ◌≤◌, length, replicate};
ghost use Rattle.rules.specs.Base.{at_front};
ghost use Rattle.rules.specs.Search.{five};
ghost use Rattle.rules.specs.Product.{decimal, line};
ghost use Rattle.writing.specs.Out.{Writes, line_of, refusal_line, longest_refusal};

// One element. A slice of a type that takes no memory may be as long as a number can say; any other is shorter.
pub fn put_element<T: Copy>(out: &mut [T], at: usize, x: T) -> usize
    requires { length out.old < usize.MAX }
    ensures { Writes (x ∷ []) out.old at out.new result }
{
    if at < out.len() {
        out[at] = x;
        return at + 1;
    }
    out.len() + 1
}

// One byte.
pub fn put(out: &mut [u8], at: usize, b: u8) -> usize
    ensures { Writes (b ∷ []) out.old at out.new result }
{
    put_element(out, at, b)
}

// A number's last digit.
fn digit(n: usize) -> u8
    ensures { result ≡ 48 + n % 10 }
{
    (48 + n % 10) as u8
}

// A number in decimal: all digits but the last, then the last. Digit by digit: no contract names the bytes that `write!` puts
// into a lent slice.
pub fn put_decimal(out: &mut [u8], from: usize, n: usize) -> usize
    ensures { Writes (decimal n) out.old from out.new result }
{
    if n < 10 {
        return put(out, from, digit(n));
    }
    let at = put_decimal(out, from, n / 10);
    put(out, at, digit(n))
}

// A number in decimal and the byte behind it.
pub fn put_number(out: &mut [u8], from: usize, n: usize, behind: u8) -> usize
    ensures { Writes (decimal n ++ behind ∷ []) out.old from out.new result }
{
    let at = put_decimal(out, from, n);
    put(out, at, behind)
}

// A line of numbers: spaces between them, a newline at the end; nothing where there is no number. A number has at most twenty digits,
// and there is one byte behind each.
pub fn put_line(out: &mut [u8], from: usize, numbers: &[usize]) -> usize
    ensures writes { Writes (line_of numbers.now) out.old from out.new result }
    ensures upper_bound { let end = from + 21 * length numbers.now in end ≤ length out.old → result ≤ end }
{
    let mut at = from;
    for (i, n) in numbers.iter().enumerate() {
        let behind = if i + 1 == numbers.len() { b'\n' } else { b' ' };
        at = put_number(out, at, *n, behind);
    }
    at
}

// The line of five numbers. Five parameters: `label`, whose answer these are, stands above `writing`; the refusal is a number, as the call
// for C gives it.
pub fn put_five(
    out: &mut [u8],
    from: usize,
    refusal: u32,
    place: usize,
    steps: u32,
    low: u32,
    high: u32,
) -> usize
    ensures { Writes (line (five refusal place steps low high)) out.old from out.new result }
{
    put_line(
        out,
        from,
        &[
            refusal as usize,
            place,
            steps as usize,
            low as usize,
            high as usize,
        ],
    )
}

// The longest line of a refusal: two numbers of at most twenty digits, and one byte behind each.
pub const LONGEST_REFUSAL: usize = 42;

// The line of a refusal and its place; nothing where the refusal is 0. It ends inside a buffer that has room for the longest one. The
// refusal is a number, as the calls for C give it.
pub fn put_refusal(out: &mut [u8], refusal: u32, place: usize) -> usize
    ensures writes { Writes (refusal_line refusal place) out.old 0 out.new result }
    ensures upper_bound { longest_refusal ≤ length out.old → result ≤ length out.new }
{
    if refusal == 0 {
        return 0;
    }
    put_line(out, 0, &[refusal as usize, place])
}

// Bytes as they are.
pub fn put_bytes(out: &mut [u8], from: usize, bytes: &[u8]) -> usize
    ensures { Writes bytes.now out.old from out.new result }
{
    let mut at = from;
    for b in bytes {
        at = put(out, at, *b);
    }
    at
}

// One value again and again, up to the buffer's end. Not `fill`: it wants that a clone cannot fail, which `T: Copy` does not say.
pub fn put_copies<T: Copy>(out: &mut [T], from: usize, value: T) -> usize
    ensures { Writes (replicate (length out.old - from) value) out.old from out.new result }
{
    for i in from..out.len() {
        out[i] = value;
    }
    from.max(out.len())
}

// Bytes that fit, and zeros behind them.
pub fn fill(out: &mut [u8], bytes: &[u8])
    requires { length bytes.now ≤ length out.old }
    ensures { out.new ≡ bytes.now ++ replicate (length out.old - length bytes.now) 0 }
{
    let (front, rest) = out.split_at_mut(bytes.len());
    front.copy_from_slice(bytes);
    rest.fill(0);
}

// Zeros up to the buffer's end. Public: `print` calls it, and so does mend's edit `sheet_left_up_to_the_place`.
pub fn put_zeros(out: &mut [u8], from: usize) -> usize
    ensures { Writes (replicate (length out.old - from) 0) out.old from out.new result }
{
    put_copies(out, from, 0)
}

// An answer's numbers at the front of an array that has room for them.
pub fn put_front<const N: usize>(answer: &mut [u64], numbers: [u64; N])
    ensures { answer.new ≡ at_front numbers.entry answer.old }
{
    if let Some(front) = answer.first_chunk_mut() {
        *front = numbers;
    }
}
