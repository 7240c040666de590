// One file: pairs of a name (tag 48, one byte) and a sheet (tag 49, any bytes), and the look for a name in it.
ghost use Rattle.std.specs.Prelude.{◌≡◌};
ghost use Rattle.shelf.specs.Pairs.{read_pair, look_in};
ghost use Rattle.shelf.specs.Shape.{pair_of, look_of};

use field::{any_field_end, fixed_field_end};
use refusal::Fault;

const NAME: u8 = 48;

const SHEET: u8 = 49;

// The bytes of a name, and of a field's head.
const NAME_SIZE: u16 = 1;

const HEAD: usize = 3;

// Where a sheet stands in its file: the place of its first byte, and how many bytes it has.
#[derive(Clone, Copy)]
pub(crate) struct Sheet {
    pub place: usize,
    pub size: usize,
}

// A name, and the sheet behind it.
#[derive(Clone, Copy)]
struct Pair {
    name: u8,
    sheet: Sheet,
}

// The pair at a place.
#[tactic(auto, unfolding(crate::proofs::Opened::pair_reading))]
fn pair_at(f: &[u8], at: usize) -> Result<Pair, Fault>
    ensures { result ≡ pair_of (read_pair f.now at) }
{
    let p = fixed_field_end(f, at, NAME, NAME_SIZE)?;
    let end = any_field_end(f, p, SHEET)?;
    let place = p + HEAD;
    Ok(Pair {
        name: f[at + HEAD],
        sheet: Sheet {
            place,
            size: end - place,
        },
    })
}

// Pair after pair: the first with the name wins, and what stands behind it is not looked at.
#[tactic(auto, using(crate::proofs::pairs::Laws::look_laws), unfolding(crate::specs::Pairs::look_in))]
pub(crate) fn look_in(f: &[u8], name: u8) -> Result<Option<Sheet>, Fault>
    ensures { result ≡ look_of (look_in name f.now) }
{
    let mut at = 0;
    // a `while`: where the next pair stands is read from this one
    while at < f.len() {
        let pair = pair_at(f, at)?;
        let sheet = pair.sheet;
        if pair.name == name {
            return Ok(Some(sheet));
        }
        at = sheet.place + sheet.size;
    }
    Ok(None)
}
