// The lookup for callers in C and in Rust: each export calls the function of the same name in `shelf`, and says what it says.
#![tactic(auto)]

ghost use Rattle.rules.specs.Demands.{Unchanged};
ghost use Rattle.shelf.specs.Lookup as Rule;
ghost use Rattle.shelf.specs.Shape.{FourIn};

// The same for C and Rust, in numbers: the refusal is returned, and refusal, file, place and size go to the front of a lent array.
// The sheet is the file's bytes from the place on, so many; there are 0 where it is refused. An array of fewer than four numbers
// is left as it is.
#[unsafe(no_mangle)]
pub extern "C" fn zumbeiry_find(name: u8, customer: &[u8], house: &[u8], answer: &mut [u64]) -> u32
    ensures four_in { FourIn (Rule.lookup name customer.now house.now) answer.old answer.new result }
    ensures unchanged { Unchanged customer.now customer.now }
    ensures unchanged_2 { Unchanged house.now house.now }
{
    shelf::zumbeiry_find(name, customer, house, answer)
}
