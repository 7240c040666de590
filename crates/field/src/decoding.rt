// A statement of a sheet that was read, decoded where it stands: how later code goes by the places of an index.
#![tactic(auto, unfolding(crate::specs::Decoded::decode_action))]

ghost use Rattle.std.specs.Prelude.{◌≡◌, ◌+◌, ◌≤◌, ◌<◌, length};
ghost use Rattle.field.specs.Decoded.{action_at, statement_at, halts};

use crate::codes::Code;
use crate::fields::{byte_at, length_at};
use crate::ticks::{Time, time16_at};

// What a statement does. An expression stands from `at` up to `end`.
#[derive(Clone, Copy)]
pub enum Action {
    Halt,
    Skip,
    Assign {
        register: usize,
        at: usize,
        end: usize,
    },
    Branch {
        target: usize,
        at: usize,
        end: usize,
    },
    Store {
        register: usize,
        variable: usize,
    },
    Load {
        register: usize,
        variable: usize,
    },
    Unlock(usize),
    Lock(usize),
}

#[derive(Clone, Copy)]
pub struct Statement {
    pub least: Time,
    pub greatest: Time,
    pub action: Action,
}

// Where a sheet was read, its statement has one of the eight codes.
fn action_at(s: &[u8], at: usize) -> Action
    requires { at + 8 ≤ length s.now }
    ensures { result ≡ action_at s.now at }
{
    let first = byte_at(s, at + 8);
    let second = byte_at(s, at + 9);
    let end = at + 3 + length_at(s, at);
    match Code::try_from(s[at + 7]) {
        Ok(Code::Halt) => Action::Halt,
        Ok(Code::Skip) => Action::Skip,
        Ok(Code::Assign) => Action::Assign {
            register: first,
            at: at + 9,
            end,
        },
        Ok(Code::Branch) => Action::Branch {
            target: first,
            at: at + 9,
            end,
        },
        Ok(Code::Store) => Action::Store {
            register: first,
            variable: second,
        },
        Ok(Code::Load) => Action::Load {
            register: first,
            variable: second,
        },
        Ok(Code::Unlock) => Action::Unlock(first),
        Ok(Code::Lock) | Err(_) => Action::Lock(first),
    }
}

// The statement whose field stands at a place. What this is of the program that the sheet reads as: `reader`'s Facts, `decoded`.
pub fn statement_at(s: &[u8], at: usize) -> Statement
    requires { at + 8 ≤ length s.now }
    ensures { (result ≡ statement_at s.now at) × (result.least.0 < 65536) × (result.greatest.0 < 65536) }
{
    Statement {
        least: time16_at(s, at + 3),
        greatest: time16_at(s, at + 5),
        action: action_at(s, at),
    }
}

pub fn is_halt(action: Action) -> bool
    ensures { result ≡ halts action }
{
    matches!(action, Action::Halt)
}
