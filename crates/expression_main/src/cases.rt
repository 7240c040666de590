// One case of each kind: what is tried, and the line that it prints.
use crate::printing::{print_refusal, print_registers, print_span};
use expression::{DEEPEST, assigned_value, branch_on, read_arith, read_condition};
use interval::{Span, Val};
use refusal::Refusal;
use std::io::Print;

// Cases with these values of registers 0 and 1, of a thread that has two.
#[derive(Clone, Copy)]
pub(crate) struct Cases {
    rt: HostRuntime,
    first: Span,
    second: Span,
}

fn from_to(ends: (i32, i32)) -> Span {
    Span {
        low: Val(ends.0),
        high: Val(ends.1),
    }
}

pub(crate) fn on(rt: HostRuntime, first: (i32, i32), second: (i32, i32)) -> Cases {
    Cases {
        rt,
        first: from_to(first),
        second: from_to(second),
    }
}

impl Cases {
    fn registers(self) -> [Span; 8] {
        let zero = from_to((0, 0));
        [self.first, self.second, zero, zero, zero, zero, zero, zero]
    }

    fn begin_line(self, text: &str) {
        let _ = print!(self.rt; "{text}, r0 ");
        print_span(self.rt, self.first);
        let _ = print!(self.rt; ", r1 ");
        print_span(self.rt, self.second);
        let _ = print!(self.rt; ": ");
    }

    // An expression is evaluated.
    pub(crate) fn value(self, text: &str, code: &[u8]) {
        self.begin_line(text);
        match assigned_value(code, 0, code.len(), 2, self.registers()) {
            Ok(s) => print_span(self.rt, s),
            Err(r) => print_refusal(self.rt, r),
        }
        let _ = println!(self.rt);
    }

    // A condition is branched on.
    pub(crate) fn branch(self, text: &str, code: &[u8]) {
        self.begin_line(text);
        let branch = branch_on(code, 0, code.len(), 2, self.registers());
        match branch.check {
            Ok(()) => {
                let _ = print!(self.rt; "yes ");
                print_registers(self.rt, branch.yes);
                let _ = print!(self.rt; ", no ");
                print_registers(self.rt, branch.no);
            }
            Err(r) => print_refusal(self.rt, r),
        }
        let _ = println!(self.rt);
    }
}

fn print_read(rt: HostRuntime, text: &str, read: Result<usize, Refusal>, length: usize) {
    match read {
        Ok(end) => {
            let _ = print!(rt; "{text}: read to {end} of {length}");
        }
        Err(r) => {
            let _ = print!(rt; "{text}: ");
            print_refusal(rt, r);
        }
    }
    let _ = println!(rt);
}

// Where an expression ends. Bytes that are left over are the caller's to refuse.
pub(crate) fn place(rt: HostRuntime, text: &str, code: &[u8]) {
    let read = read_arith(code, 0, code.len(), 2, DEEPEST);
    print_read(rt, text, read, code.len());
}

pub(crate) fn condition_place(rt: HostRuntime, text: &str, code: &[u8]) {
    let read = read_condition(code, 0, code.len(), 2, DEEPEST);
    print_read(rt, text, read, code.len());
}
