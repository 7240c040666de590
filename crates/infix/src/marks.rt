// Parentheses, and what stands between two operands.
ghost use Rattle.std.specs.Prelude.{◌≡◌, ◌≤◌};
ghost use Rattle.interval.specs.Shape.{operator_of};
ghost use Rattle.writing.specs.Out.{Writes};
ghost use Rattle.printed.specs.Print as Rule;
ghost use Rattle.infix.specs.Prints.{opening, closing, relation_sign};

use crate::Walked;
use expression::kind::Relation;
use interval::Operator;
use writing::{put, put_bytes};

// How strongly an operator binds.
pub(crate) fn binding(o: Operator) -> usize
    ensures { (result ≡ Rule.binding (operator_of o)) × (result ≤ 2) }
{
    match o {
        Operator::Plus | Operator::Minus => 1,
        Operator::Times | Operator::Divide => 2,
    }
}

pub(crate) fn put_sign(out: &mut [u8], at: usize, o: Operator) -> usize
    ensures { Writes (Rule.sign (operator_of o)) out.old at out.new result }
{
    match o {
        Operator::Plus => put_bytes(out, at, b" + "),
        Operator::Minus => put_bytes(out, at, b" - "),
        Operator::Times => put_bytes(out, at, b" * "),
        Operator::Divide => put_bytes(out, at, b" / "),
    }
}

pub(crate) fn put_relation(out: &mut [u8], at: usize, o: Relation) -> usize
    ensures { Writes (relation_sign o) out.old at out.new result }
{
    match o {
        Relation::Equal => put_bytes(out, at, b" == "),
        Relation::Less => put_bytes(out, at, b" < "),
    }
}

// An opening parenthesis, where there is to be one.
pub(crate) fn open_group(out: &mut [u8], at: usize, grouped: bool) -> usize
    ensures { Writes (opening grouped) out.old at out.new result }
{
    if grouped { put(out, at, b'(') } else { at }
}

// The closing one, behind the last operand.
pub(crate) fn close_group(out: &mut [u8], last: Walked, grouped: bool) -> Walked
    ensures { (result.next ≡ last.next) × Writes (closing grouped) out.old last.at out.new result.at }
{
    if grouped {
        Walked {
            at: put(out, last.at, b')'),
            ..last
        }
    } else {
        last
    }
}
