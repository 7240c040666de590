// Expressions and conditions executed: each case prints a line, and `stdout` has the lines as worked out by hand.
#![tactic(auto)]

mod cases; // one case of each kind
mod conditions; // conditions branched on
mod order; // which of two faults is told
mod printing; // how values, registers and refusals are printed
mod product; // products
mod quotient; // quotients
mod reading; // expressions and conditions as they are read
mod values; // expressions evaluated

fn main(rt: HostRuntime) {
    values::figures(rt);
    quotient::values(rt);
    quotient::spans(rt);
    values::sums_and_products(rt);
    product::values(rt);
    product::spans(rt);
    values::extremes(rt);
    values::nested(rt);
    order::operands(rt);
    conditions::simple_conditions(rt);
    conditions::comparisons(rt);
    conditions::conjunctions(rt);
    conditions::faults(rt);
    order::parts(rt);
    conditions::sides(rt);
    reading::leaves(rt);
    reading::operands(rt);
    reading::condition_codes(rt);
    reading::condition_operands(rt);
}
