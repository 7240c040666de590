// What the code at a place says. The same codes are written by `scan` and `notation`.
ghost use Rattle.std.specs.Prelude.{◌≡◌, ◌<◌, ◌≤◌, length, OnSome};
ghost use Rattle.rules.specs.Format.{arith_kind, arith_at, condition_kind, condition_at};
ghost use Rattle.expression.specs.Kind.{arith_kind_of, condition_kind_of};

use interval::Operator;

#[derive(Clone, Copy)]
pub enum ArithKind {
    Constant,
    Register,
    Operation(Operator),
}

// An `Option`, as is a condition's: evaluation ends at None without a refusal, and reading makes BadExpression of it.
#[tactic(auto, unfolding(rules::specs::Format::arith_kind))]
fn arith_kind(code: u8) -> Option<ArithKind>
    ensures { arith_kind_of result ≡ arith_kind code }
{
    match code {
        16 => Some(ArithKind::Constant),
        17 => Some(ArithKind::Register),
        18 => Some(ArithKind::Operation(Operator::Plus)),
        19 => Some(ArithKind::Operation(Operator::Minus)),
        20 => Some(ArithKind::Operation(Operator::Times)),
        21 => Some(ArithKind::Operation(Operator::Divide)),
        _ => None,
    }
}

// None where the code is no expression's, and where the body has ended.
#[tactic(auto, unfolding(rules::specs::Format::arith_at))]
pub fn arith_at(s: &[u8], at: usize, end: usize) -> Option<ArithKind>
    requires { end ≤ length s.now }
    ensures kind { arith_kind_of result ≡ arith_at s.now end at }
    ensures inside { OnSome result (at < end) }
{
    if at < end { arith_kind(s[at]) } else { None }
}

#[derive(Clone, Copy)]
pub enum Relation {
    Equal,
    Less,
}

#[derive(Clone, Copy)]
pub enum ConditionKind {
    Always,
    Never,
    Negation,
    Conjunction,
    Comparison(Relation),
}

// An `Option` for the same reason as `arith_kind`.
#[tactic(auto, unfolding(rules::specs::Format::condition_kind))]
fn condition_kind(code: u8) -> Option<ConditionKind>
    ensures { condition_kind_of result ≡ condition_kind code }
{
    match code {
        32 => Some(ConditionKind::Always),
        33 => Some(ConditionKind::Never),
        34 => Some(ConditionKind::Negation),
        35 => Some(ConditionKind::Conjunction),
        36 => Some(ConditionKind::Comparison(Relation::Equal)),
        37 => Some(ConditionKind::Comparison(Relation::Less)),
        _ => None,
    }
}

// None where the code is no condition's, and where the body has ended.
#[tactic(auto, unfolding(rules::specs::Format::condition_at))]
pub fn condition_at(s: &[u8], at: usize, end: usize) -> Option<ConditionKind>
    requires { end ≤ length s.now }
    ensures kind { condition_kind_of result ≡ condition_at s.now end at }
    ensures inside { OnSome result (at < end) }
{
    if at < end {
        condition_kind(s[at])
    } else {
        None
    }
}
