// New times, the change taken back and the preview for callers in C and in Rust: each export calls the function of the same name in
// `retime`, and says what it says.
#![tactic(auto)]

ghost use Rattle.std.specs.Prelude.{◌≡◌};
ghost use Rattle.label.specs.Shape.{FiveIn};
ghost use Rattle.retimed.specs.Retime as Rule;
ghost use Rattle.retimed.specs.TakeBack as Back;
ghost use Rattle.retimed.specs.Claims.{ReadsRetimed, HoldsRetimed};
ghost use Rattle.retimed.specs.TakeBackClaims.{ComesBack, AllComeBack};
ghost use Rattle.retime.specs.Shape.{EightIn, TwoIn, Leaves};

// The change for callers in C and in Rust: the answer's eight numbers (refusal, place, then what it did: thread, statement, old least,
// old greatest, new least, new greatest) go to the front of a lent array, and the refusal is returned. An array of fewer than eight
// numbers is left as it is; the change is made all the same.
#[unsafe(no_mangle)]
pub extern "C" fn zumbeiry_change_times(
    sheet: &mut [u8],
    thread: usize,
    statement: usize,
    least: u64,
    greatest: u64,
    answer: &mut [u64],
) -> u32
    ensures eight_in { EightIn (Rule.change sheet.old thread statement least greatest) answer.old answer.new result }
    ensures sheet_after { sheet.new ≡ (Rule.change sheet.old thread statement least greatest).sheet }
    ensures reads_retimed { ReadsRetimed sheet.old thread statement least greatest }
    ensures comes_back { ComesBack sheet.old thread statement least greatest }
{
    retime::zumbeiry_change_times(sheet, thread, statement, least, greatest, answer)
}

// The taking back for callers in C and in Rust, of a change given by its six numbers: the answer's two (refusal, place) go to the front
// of a lent array, and the refusal is returned. An array of fewer than two numbers is left as it is; the change is taken back all the
// same.
#[unsafe(no_mangle)]
pub extern "C" fn zumbeiry_take_back(
    sheet: &mut [u8],
    thread: usize,
    statement: usize,
    old_least: u64,
    old_greatest: u64,
    new_least: u64,
    new_greatest: u64,
    answer: &mut [u64],
) -> u32
    ensures two_in { TwoIn (Back.take_back sheet.old (Rule.from_to thread statement old_least old_greatest new_least new_greatest))
        answer.old answer.new result }
    ensures sheet_after { sheet.new
        ≡ (Back.take_back sheet.old (Rule.from_to thread statement old_least old_greatest new_least new_greatest)).sheet }
    ensures all_come_back { AllComeBack sheet.old }
{
    retime::zumbeiry_take_back(
        sheet,
        thread,
        statement,
        old_least,
        old_greatest,
        new_least,
        new_greatest,
        answer,
    )
}

// The preview for callers in C and in Rust: the five numbers go to the front of a lent array, and the refusal is returned. An array of
// fewer than five numbers is left as it is; the copy and the work buffer are all zeros all the same.
#[unsafe(no_mangle)]
pub extern "C" fn zumbeiry_preview(
    sheet: &[u8],
    copy: &mut [u8],
    work: &mut [i32],
    thread: usize,
    statement: usize,
    least: u64,
    greatest: u64,
    answer: &mut [u64],
) -> u32
    ensures five_in { FiveIn (Rule.preview sheet.now copy.old work.old thread statement least greatest).answer
        answer.old answer.new result }
    ensures leaves { Leaves (Rule.preview sheet.now copy.old work.old thread statement least greatest) sheet.now copy.new work.new }
    ensures holds_retimed { result ≡ 0 → HoldsRetimed sheet.now thread statement least greatest
        (Rule.preview sheet.now copy.old work.old thread statement least greatest).answer }
{
    retime::zumbeiry_preview(
        sheet, copy, work, thread, statement, least, greatest, answer,
    )
}
