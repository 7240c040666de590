// What the program's words ask for. A number becomes a `usize` by `as`: std has no `From` for it, and a `try_from` would
// give an error that cannot come.
ghost use Rattle.std.specs.Prelude.{◌≡◌};
ghost use Rattle.retime_main.specs.Words.{asked_in, back_in, Says};

use digits::number_in;
use files::{MOST_OF_WORD, word, word_count};
use retime::{Asked, Change};

// What the words ask for: what new times would give, the new times, or a change taken back.
#[derive(Clone, Copy)]
pub(crate) enum Asks {
    Preview(Asked),
    Change(Asked),
    TakeBack(Change),
}

// What four words ask for, each a number in decimal.
#[tactic(auto, unfolding(crate::specs::Words::asked_in))]
fn asked_in(thread: &[u8], statement: &[u8], least: &[u8], greatest: &[u8]) -> Option<Asked>
    ensures { result ≡ asked_in thread.now statement.now least.now greatest.now }
{
    Some(Asked {
        thread: number_in(thread)? as usize,
        statement: number_in(statement)? as usize,
        least: number_in(least)?,
        greatest: number_in(greatest)?,
    })
}

// The four words behind SHEET: of new times all, of a change taken back the statement and its old times. One that is missing, or has
// more than 4,096 bytes, writes no number.
fn times_given(rt: HostRuntime) -> Option<Asked> {
    let mut thread = [0u8; MOST_OF_WORD];
    let a = word(rt, 2, &mut thread);
    let mut statement = [0u8; MOST_OF_WORD];
    let b = word(rt, 3, &mut statement);
    let mut least = [0u8; MOST_OF_WORD];
    let c = word(rt, 4, &mut least);
    let mut greatest = [0u8; MOST_OF_WORD];
    let d = word(rt, 5, &mut greatest);
    asked_in(&thread[..a], &statement[..b], &least[..c], &greatest[..d])
}

// The change to be taken back: a statement with its old times, and two words, its new ones.
#[tactic(auto, unfolding(crate::specs::Words::back_in))]
fn back_in(old: Option<Asked>, least: &[u8], greatest: &[u8]) -> Option<Change>
    ensures { result ≡ back_in old least.now greatest.now }
{
    let a = old?;
    Some(Change {
        thread: a.thread,
        statement: a.statement,
        old_least: a.least,
        old_greatest: a.greatest,
        new_least: number_in(least)?,
        new_greatest: number_in(greatest)?,
    })
}

// What the six words behind SHEET say.
fn back_given(rt: HostRuntime) -> Option<Change> {
    let old = times_given(rt);
    let mut least = [0u8; MOST_OF_WORD];
    let a = word(rt, 6, &mut least);
    let mut greatest = [0u8; MOST_OF_WORD];
    let b = word(rt, 7, &mut greatest);
    back_in(old, &least[..a], &greatest[..b])
}

// Whether a word is `write`.
fn says_write(word: &[u8]) -> bool
    ensures { Says word.now result }
{
    word == b"write".as_slice()
}

// Whether the last argument is `write`.
fn write_given(rt: HostRuntime) -> bool {
    let mut given = [0u8; MOST_OF_WORD];
    let n = word(rt, 6, &mut given);
    says_write(&given[..n])
}

// What all the words ask for.
pub(crate) fn asks_given(rt: HostRuntime) -> Option<Asks> {
    match word_count(rt) {
        6 => times_given(rt).map(Asks::Preview),
        7 if write_given(rt) => times_given(rt).map(Asks::Change),
        8 => back_given(rt).map(Asks::TakeBack),
        _ => None,
    }
}
