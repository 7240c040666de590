// What a change of times would give: the five numbers of the check of a changed copy. The sheet is not written.
ghost use Rattle.std.specs.Prelude.{◌≡◌, length};
ghost use Rattle.label.specs.Shape.{answer_of};
ghost use Rattle.retimed.specs.Retime.{preview_answer, preview};
ghost use Rattle.retimed.specs.Claims.{HoldsRetimed};
ghost use Rattle.retime.specs.Shape.{answer_by, Leaves};

use crate::change::{Asked, change_by};
use label::{Answer, check, refused};
use reader::read_sheet;
use refusal::{Fault, Refusal};
use state::clear;

// The check of a changed copy, with whatever is left in both buffers.
#[tactic(auto, using(crate::proofs::Previewing::preview_laws))]
fn check_changed(
    sheet: &[u8],
    copy: &mut [u8],
    work: &mut [i32],
    asked: Asked,
) -> Result<Answer, Fault>
    ensures { answer_of (answer_by result)
        ≡ preview_answer sheet.now (length copy.old) (length work.old) asked.thread asked.statement asked.least asked.greatest }
{
    let index = read_sheet(sheet)?;
    let Some(changed) = copy.get_mut(..sheet.len()) else {
        return Err(Fault::from(Refusal::OutputFull));
    };
    changed.copy_from_slice(sheet);
    let _made = change_by(changed, &index, asked)?;
    Ok(check(changed, work))
}

// The five numbers that new times on a statement would give. Both buffers may be of any length, and are all zeros afterwards, in every
// case.
#[tactic(auto, unfolding(retimed::specs::Retime::preview))]
pub fn preview_times(sheet: &[u8], copy: &mut [u8], work: &mut [i32], asked: Asked) -> Answer
    ensures result_value { answer_of result
        ≡ (preview sheet.now copy.old work.old asked.thread asked.statement asked.least asked.greatest).answer }
    ensures leaves { Leaves (preview sheet.now copy.old work.old asked.thread asked.statement asked.least asked.greatest)
        sheet.now copy.new work.new }
    ensures holds_retimed { result.refusal ≡ 0
        → HoldsRetimed sheet.now asked.thread asked.statement asked.least asked.greatest (answer_of result) }
{
    let a = check_changed(sheet, copy, work, asked).unwrap_or_else(|f| refused(
        u32::from(f.refusal),
        f.place,
        0,
    ));
    copy.fill(0);
    clear(work);
    a
}
