// What a statement does, from what was decoded of it; an expression is printed where it stands in the sheet.
ghost use Rattle.std.specs.Prelude.{◌≡◌, ◌++◌, ℕ, ◌≤◌, length};
ghost use Rattle.rules.specs.Constants.{deepest};
ghost use Rattle.rules.specs.Program as R;
ghost use Rattle.rules.specs.Format.{Bytes, got, read_arith, read_condition};
ghost use Rattle.rules.specs.Product.{decimal};
ghost use Rattle.writing.specs.Out.{Writes};
ghost use Rattle.printed.specs.Print.{print_action};
ghost use Rattle.print.specs.Texts.{TextOf, EndsIn};

use expression::DEEPEST;
use field::Action;
use infix::{ANY_ARITH, ANY_CONDITION, print_arith, print_condition};
use writing::{put_bytes, put_decimal};

// A word and the number behind it.
pub(crate) fn put_named(out: &mut [u8], from: usize, word: &[u8], n: usize) -> usize
    ensures { Writes (word.now ++ decimal n) out.old from out.new result }
{
    let at = put_bytes(out, from, word);
    put_decimal(out, at, n)
}

// Two words, each with the number behind it.
fn put_both(out: &mut [u8], from: usize, first: &[u8], n: usize, second: &[u8], m: usize) -> usize
    ensures { Writes (first.now ++ (decimal n ++ (second.now ++ decimal m))) out.old from out.new result }
{
    let at = put_named(out, from, first, n);
    put_named(out, at, second, m)
}

fn print_assign(
    s: &[u8],
    register: usize,
    at: usize,
    end: usize,
    out: &mut [u8],
    from: usize,
) -> usize
    requires { end ≤ length s.now }
    ensures { (n : ℕ) (x : R.Arith) → read_arith deepest s.now end n at ≡ got x end
        → Writes (print_action (R.assign register x)) out.old from out.new result }
{
    let first = put_named(out, from, b"r", register);
    let second = put_bytes(out, first, b" := ");
    print_arith(s, at, end, DEEPEST, ANY_ARITH, out, second).at
}

fn print_branch(
    s: &[u8],
    target: usize,
    at: usize,
    end: usize,
    out: &mut [u8],
    from: usize,
) -> usize
    requires { end ≤ length s.now }
    ensures { (n : ℕ) (c : R.Condition) → read_condition deepest s.now end n at ≡ got c end
        → Writes (print_action (R.branch target c)) out.old from out.new result }
{
    let first = put_bytes(out, from, b"if ");
    let w = print_condition(s, at, end, DEEPEST, ANY_CONDITION, out, first);
    put_named(out, w.at, b" goto ", target)
}

pub(crate) fn print_action(s: &[u8], action: Action, out: &mut [u8], from: usize) -> usize
    requires { EndsIn (length s.now) action }
    ensures { (t : Bytes) → TextOf s.now action t → Writes t out.old from out.new result }
{
    match action {
        Action::Halt => put_bytes(out, from, b"halt"),
        Action::Skip => put_bytes(out, from, b"skip"),
        Action::Assign { register, at, end } => print_assign(s, register, at, end, out, from),
        Action::Branch { target, at, end } => print_branch(s, target, at, end, out, from),
        Action::Store { register, variable } => put_both(
            out, from, b"store r", register, b" to x", variable,
        ),
        Action::Load { register, variable } => put_both(
            out, from, b"load r", register, b" from x", variable,
        ),
        Action::Unlock(l) => put_named(out, from, b"unlock l", l),
        Action::Lock(l) => put_named(out, from, b"lock l", l),
    }
}
