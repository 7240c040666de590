// The head of a field: three bytes, its tag and its length.
#![tactic(auto, unfolding(rules::specs::Format::has_head))]

ghost use Rattle.std.specs.Prelude.{◌≡◌};
ghost use Rattle.rules.specs.Format.{has_head};
ghost use Rattle.field.specs.Heads.{field_at};

use crate::outcome::need;
use expression::num16_at;
use refusal::{Fault, Refusal};

// Where a head has its tag and its length, and how long it is.
const TAG: usize = 0;

const LENGTH: usize = 1;

const HEAD: usize = 3;

// A field's tag, its length, and the place of its body.
#[derive(Clone, Copy)]
pub(crate) struct Field {
    pub tag: u8,
    pub length: usize,
    pub body: usize,
}

pub fn has_head(s: &[u8], at: usize) -> bool
    ensures { result ≡ has_head s.now at }
{
    HEAD <= s.len() && at <= s.len() - HEAD
}

// The field at a place, whose head the sheet is to have whole.
pub(crate) fn field_at(s: &[u8], at: usize) -> Result<Field, Fault>
    ensures { result ≡ field_at s.now at }
{
    need(has_head(s, at), Refusal::Short, at)?;
    Ok(Field {
        tag: s[at + TAG],
        length: usize::from(num16_at(s, at + LENGTH)),
        body: at + HEAD,
    })
}
