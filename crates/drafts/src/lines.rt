//! The lines of a draft: its waiting nodes, in order.

ghost use Rattle.std.specs.Prelude.{◌≡◌};
ghost use Rattle.drafts.specs.Trees.{lines_counted, TreesStand};

use super::draft::Draft;
use super::record::{Record, Source};
use super::waiting::Waiting;
use packed::Refusal;

/// How many lines the draft has; or the refusal of a file that is too long, or of a foreign table, at the file's length.
#[tactic(auto, using(crate::proofs::Growing::trees_stand))]
pub fn line_count<'a>(file: &'a [u8], draft: &Draft, table: &'a [Record]) -> Result<usize, Refusal>
    ensures count { result ≡ lines_counted file.now draft.now.nodes table.now }
    ensures trees { TreesStand file.now }
{
    let source = Source {
        file,
        records: table,
    };
    source.check(draft.nodes, file.len())?;
    let lines = Waiting {
        source,
        end: usize::from(draft.nodes),
    };
    Ok(lines.count())
}
