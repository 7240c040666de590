// How values, registers and refusals are printed. What standard output does not take is lost, as the runs have no one to tell it to.
use interval::Span;
use refusal::Refusal;
use std::io::Print;

pub(crate) fn print_span(rt: HostRuntime, s: Span) {
    let _ = print!(rt; "{}..{}", s.low.0, s.high.0);
}

pub(crate) fn print_refusal(rt: HostRuntime, r: Refusal) {
    let _ = print!(rt; "refusal {}", u32::from(r));
}

// Registers 0 and 1, where a way of a condition leaves any.
pub(crate) fn print_registers(rt: HostRuntime, registers: Option<[Span; 8]>) {
    let Some(spans) = registers else {
        let _ = print!(rt; "none");
        return;
    };
    print_span(rt, spans[0]);
    let _ = print!(rt; " ");
    print_span(rt, spans[1]);
}
