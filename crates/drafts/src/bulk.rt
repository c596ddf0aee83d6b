//! Adding all nodes of a file.

ghost use Rattle.std.specs.Prelude.{◌≡◌};
ghost use Rattle.drafts.specs.Bulk.{AddsAll, EndsOnce};

use super::adding::enter;
use super::draft::{Draft, open};
use super::record::Record;
use packed::{MAX_FILE, Reason, Refusal};

/// A draft of a file's nodes, as far as they were accepted.
#[derive(Drop)]
pub struct Opened {
    pub draft: Draft,
    /// The file's end, or where the field begins that was refused.
    pub place: usize,
    /// Whether all were accepted, or the refusal that stopped it.
    pub outcome: Result<(), Refusal>,
}

/// Adds the fields from `place` on to a draft just opened, and moves `place` behind each.
fn add_all(
    file: &[u8],
    draft: &mut Draft,
    table: &mut [Record],
    place: &mut usize,
) -> Result<(), Refusal>
    requires { draft.old.nodes ≡ 0 }
    ensures { AddsAll file.now 0 table.old place.old draft.new.nodes table.new place.new result }
{
    if file.len() > MAX_FILE {
        return Err(Refusal {
            reason: Reason::Full,
            place: MAX_FILE,
        });
    }
    // No `for` over the fields: `enter` reads the field itself, so that each would be read twice.
    while *place != file.len() {
        *place = enter(file, draft, table, *place)?;
    }
    Ok(())
}

/// Opens a draft and adds the fields from `place` on, one after the other, up to the file's end or the first refusal.
#[tactic(auto, using(crate::proofs::Bulks::ends_once))]
pub fn open_all(file: &[u8], table: &mut [Record], place: usize) -> Opened
    ensures run { AddsAll file.now 0 table.old place result.draft.nodes table.new result.place result.outcome }
    ensures once { EndsOnce file.now }
{
    let mut draft = open();
    let mut place = place;
    let outcome = add_all(file, &mut draft, table, &mut place);
    Opened {
        draft,
        place,
        outcome,
    }
}
