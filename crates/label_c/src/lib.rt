// The check for callers in C and in Rust: each export calls the function of the same name in `label`, and says what it says.
#![tactic(auto)]

ghost use Rattle.std.specs.Prelude.{◌≡◌, length};
ghost use Rattle.rules.specs.Search as S;
ghost use Rattle.rules.specs.Demands.{AllZeros, Unchanged, HoldsOfSheet};
ghost use Rattle.label.specs.Shape.{WindowOf, FiveIn};

// The check for callers in C and in Rust: the refusal is returned, and the five numbers go to the front of a lent array. An array of
// fewer than five numbers is left as it is; the work buffer is all zeros all the same.
#[unsafe(no_mangle)]
pub extern "C" fn zumbeiry_check(sheet: &[u8], work: &mut [i32], answer: &mut [u64]) -> u32
    ensures five_in { FiveIn (S.answer sheet.now (length work.old)) answer.old answer.new result }
    ensures window_of { result ≡ 0 → WindowOf sheet.now work.old }
    ensures holds_of_sheet { result ≡ 0 → HoldsOfSheet sheet.now }
    ensures all_zeros { AllZeros work.old work.new }
    ensures unchanged { Unchanged sheet.now sheet.now }
{
    label::zumbeiry_check(sheet, work, answer)
}
