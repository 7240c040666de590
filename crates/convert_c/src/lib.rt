// The conversion for callers in C and in Rust: each export calls the function of the same name in `convert`, and says what it says.
#![tactic(auto)]

ghost use Rattle.std.specs.Prelude.{length};
ghost use Rattle.rules.specs.Demands.{Unchanged};
ghost use Rattle.text.specs.Convert as Rule;
ghost use Rattle.convert.specs.Shape.{ConvertsWell, ThreeIn, Leaves};

// The same for callers in C and in Rust: the answer's three numbers (refusal, place, bytes written) go to the front of a lent array, and
// the refusal is returned. An array of fewer than three numbers is left as it is; the text is converted all the same.
#[unsafe(no_mangle)]
pub extern "C" fn zumbeiry_convert(text: &[u8], sheet: &mut [u8], answer: &mut [u64]) -> u32
    ensures three_in { ThreeIn (Rule.convert (length sheet.old) text.now) answer.old answer.new result }
    ensures leaves { Leaves (Rule.convert (length sheet.old) text.now) sheet.new }
    ensures converts_well { ConvertsWell (length sheet.old) text.now }
    ensures unchanged { Unchanged text.now text.now }
{
    convert::zumbeiry_convert(text, sheet, answer)
}
