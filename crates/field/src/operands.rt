// The operands of a statement's code, and what they may name. The sheet s is whole, as everywhere.
#![tactic(auto, unfolding(crate::proofs::Opened::operands))]

ghost use Rattle.std.specs.Prelude.{◌≡◌, true, ◌+◌, ◌≤◌, ◌<◌, length};
ghost use Rattle.rules.specs.Format.{length_fits, read_action};
ghost use Rattle.field.specs.Codes.{number_of};
ghost use Rattle.field.specs.Outcome.{end_of, names_of, exact_end};

use crate::codes::Code;
use crate::fields::byte_at;
use crate::outcome::need;
use expression::{DEEPEST, read_arith, read_condition};
use refusal::{Fault, Refusal};

// What a thread's statements may name: its registers, and the sheet's variables and locks.
#[derive(Clone, Copy)]
pub struct Names {
    pub regs: usize,
    pub vars: usize,
    pub locks: usize,
}

// What stands behind the code of a statement whose field is at a place: its operands, from p up to the end e of the body.
#[derive(Clone, Copy)]
struct Operands<'a> {
    s: &'a [u8],
    names: Names,
    at: usize,
    p: usize,
    e: usize,
    ghost inside: { e ≤ length s.now },
}

// An expression is to end where the body ends; a fault in it is the field's.
fn exact_end(x: Result<usize, Refusal>, at: usize, e: usize) -> Result<usize, Fault>
    ensures { result ≡ exact_end at e x }
{
    let q = x.map_err(|refusal| Fault { refusal, place: at })?;
    need(q == e, Refusal::BadExpression, at)?;
    Ok(q)
}

impl Operands<'_> {
    fn assign_end(&self) -> Result<usize, Fault>
        requires { self.now.p < self.now.e }
        ensures { result ≡ end_of (read_action 2 (names_of self.now.names) self.now.s.now self.now.at self.now.e self.now.p) }
    {
        need(
            byte_at(self.s, self.p) < self.names.regs,
            Refusal::NoSuchName,
            self.at,
        )?;
        let x = read_arith(self.s, self.p + 1, self.e, self.names.regs, DEEPEST);
        exact_end(x, self.at, self.e)
    }

    fn branch_end(&self) -> Result<usize, Fault>
        requires { self.now.p < self.now.e }
        ensures { result ≡ end_of (read_action 3 (names_of self.now.names) self.now.s.now self.now.at self.now.e self.now.p) }
    {
        let x = read_condition(self.s, self.p + 1, self.e, self.names.regs, DEEPEST);
        exact_end(x, self.at, self.e)
    }

    // Store and load: a register and a variable.
    fn transfer_end(&self) -> Result<usize, Fault>
        requires { self.now.p < self.now.e }
        ensures store { result ≡ end_of (read_action 4 (names_of self.now.names) self.now.s.now self.now.at self.now.e self.now.p) }
        ensures load { result ≡ end_of (read_action 5 (names_of self.now.names) self.now.s.now self.now.at self.now.e self.now.p) }
    {
        let named = byte_at(self.s, self.p) < self.names.regs
            && byte_at(self.s, self.p + 1) < self.names.vars;
        need(named, Refusal::NoSuchName, self.at)?;
        Ok(self.e)
    }

    // Unlock and lock.
    fn lock_end(&self) -> Result<usize, Fault>
        ensures unlock { result ≡ end_of (read_action 6 (names_of self.now.names) self.now.s.now self.now.at self.now.e self.now.p) }
        ensures lock { result ≡ end_of (read_action 7 (names_of self.now.names) self.now.s.now self.now.at self.now.e self.now.p) }
    {
        need(
            byte_at(self.s, self.p) < self.names.locks,
            Refusal::NoSuchName,
            self.at,
        )?;
        Ok(self.e)
    }
}

// The operands of a code, in a body of n bytes.
pub(crate) fn action_end(
    s: &[u8],
    names: Names,
    at: usize,
    code: Code,
    n: usize,
) -> Result<usize, Fault>
    requires { (length_fits (number_of code) n ≡ true) × (5 ≤ n) × (at + 3 + n ≤ length s.now) }
    ensures { result ≡ end_of (read_action (number_of code) (names_of names) s.now at (at + 3 + n) (at + 8)) }
{
    let operands = Operands {
        s,
        names,
        at,
        p: at + 8,
        e: at + 3 + n,
    };
    match code {
        Code::Halt | Code::Skip => Ok(operands.e),
        Code::Assign => operands.assign_end(),
        Code::Branch => operands.branch_end(),
        Code::Store | Code::Load => operands.transfer_end(),
        Code::Unlock | Code::Lock => operands.lock_end(),
    }
}
