// The follower for callers in C and in Rust: each export calls the function of the same name in `record`, and says what it says.
#![tactic(auto)]

ghost use Rattle.rules.specs.Demands.{Unchanged};
ghost use Rattle.recorded.specs.Follow as F;
ghost use Rattle.recorded.specs.Claims.{EndsInLabel};
ghost use Rattle.record.specs.Shape.{FiveIn};

// The follower for callers in C and in Rust: the answer's five numbers (refusal, file, place, finished, tick) go to the front of a lent
// array, and the refusal is returned. An array of fewer than five numbers is left as it is.
#[unsafe(no_mangle)]
pub extern "C" fn zumbeiry_follow(sheet: &[u8], recorded: &[u8], answer: &mut [u64]) -> u32
    ensures five_in { FiveIn (F.follow sheet.now recorded.now) answer.old answer.new result }
    ensures ends_in_label { EndsInLabel sheet.now (F.follow sheet.now recorded.now) }
    ensures unchanged { Unchanged sheet.now sheet.now × Unchanged recorded.now recorded.now }
{
    record::zumbeiry_follow(sheet, recorded, answer)
}
