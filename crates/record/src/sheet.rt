// A sheet that reads, with what following keeps of its index.
use event::plan::Plan;
use reader::MOST_PLACES;

// That these are one sheet's is a `requires` and no ghost field: a ghost field's fact has to be shown to have one proof at most, and no
// such proof is there of all that is known of a sheet that reads.
#[derive(Clone, Copy)]
pub(crate) struct Sheet<'a> {
    pub bytes: &'a [u8],
    pub places: &'a [u16; MOST_PLACES],
    pub plan: Plan,
    pub variables: usize,
}
