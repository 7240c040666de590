// The printing for callers in C and in Rust: each export calls the function of the same name in `print`, and says what it says.
#![tactic(auto)]

ghost use Rattle.std.specs.Prelude.{length};
ghost use Rattle.rules.specs.Demands.{Unchanged};
ghost use Rattle.printed.specs.Print as Rule;
ghost use Rattle.print.specs.Shape.{PrintsWell, ThreeIn, Leaves};

// The same for callers in C and in Rust: the answer's three numbers (refusal, place, bytes written) go to the front of a lent array, and
// the refusal is returned. An array of fewer than three numbers is left as it is; the sheet is printed all the same.
#[unsafe(no_mangle)]
pub extern "C" fn zumbeiry_print(sheet: &[u8], text: &mut [u8], answer: &mut [u64]) -> u32
    ensures three_in { ThreeIn (Rule.print_sheet (length text.old) sheet.now) answer.old answer.new result }
    ensures leaves { Leaves (Rule.print_sheet (length text.old) sheet.now) text.new }
    ensures prints_well { PrintsWell (length text.old) sheet.now }
    ensures unchanged { Unchanged sheet.now sheet.now }
{
    print::zumbeiry_print(sheet, text, answer)
}
