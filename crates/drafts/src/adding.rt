//! Adding the node of a field.

ghost use Rattle.std.specs.Prelude.{◌≡◌, ◌<◌, ◌≤◌, true, None, length, cond};
ghost use Rattle.drafts.specs.Added.{known, accepted, stands, sound, checked, adds, answer, stored, counted, Add};
ghost use Rattle.drafts.specs.Left.{ForeignOnly};
ghost use Rattle.drafts.specs.Plain.{FallsIntoParts, RowsSay};
ghost use Rattle.drafts.specs.Table.{row_of, shape_in};

use super::draft::Draft;
use super::kind::Kind;
use super::record::{Record, Source};
use super::row::{Row, row_of};
use super::waiting::Waiting;
use packed::{MAX_FILE, RawNode, Reason, Refusal, node_at};

/// The row of the node's kind, if there is such a kind and detail, and it may have this reference.
#[inline(always)]
fn known_row(node: RawNode<'_>) -> Option<Row>
    ensures { shape_in result ≡ cond (known node.entry.kind node.entry.detail node.entry.reference) (row_of node.entry.kind) None }
{
    let row = row_of(node.kind)?;
    if node.detail < row.0 && (node.reference == 0 || node.kind == Kind::Identifier as u8) {
        Some(row)
    } else {
        None
    }
}

impl Waiting<'_> {
    /// The record that the field at `place` makes after the nodes that wait, and the place of the next field.
    #[inline(always)]
    fn accept(self, place: usize) -> Result<(Record, usize), Refusal>
        ensures { result ≡ accepted self.entry.source.file.now self.entry.source.records.now self.entry.end place }
    {
        let refused = |reason| Refusal { reason, place };
        let (node, next) = node_at(self.source.file, place)?;
        let Some(Row(_, text, children)) = known_row(node) else {
            return Err(refused(Reason::BadHeader));
        };
        if node.kind == Kind::TypeScriptDeclaration as u8 {
            return Err(refused(Reason::TypeScriptOnly));
        }
        if !text.allows(node) {
            return Err(refused(Reason::BadText));
        }
        let Some((last, start)) = self.last(node.count) else {
            return Err(refused(Reason::BadChildren));
        };
        if !children.allow(last, node.detail) {
            return Err(refused(Reason::BadChildren));
        }
        if self.end >= usize::from(u16::MAX) {
            return Err(refused(Reason::Full));
        }
        let record = Record {
            place: place as u16,
            kind: node.kind,
            detail: node.detail,
            count: node.count,
            reference: node.reference,
            span: (self.end + 1 - start) as u16,
        };
        Ok((record, next))
    }

    /// Whether the next record is what its field makes after those before it.
    fn stands(self) -> bool
        requires { self.end < length self.source.records.now }
        ensures { result ≡ stands self.entry.source.file.now self.entry.source.records.now self.entry.end }
    {
        let record = self.source.records[self.end];
        self.accept(usize::from(record.place))
            .is_ok_and(|(made, _)| made == record)
    }
}

impl Source<'_> {
    /// Whether the first `used` records are what accepted adds from this file leave.
    fn is_sound(self, used: u16) -> bool
        requires { used ≤ length self.records.now }
        ensures { result ≡ sound self.entry.file.now self.entry.records.now used }
    {
        // No `all`: whether a record stands is asked only where those before it do.
        for node in 0..used {
            let before = Waiting {
                source: self,
                end: usize::from(node),
            };
            if !before.stands() {
                return false;
            }
        }
        true
    }

    /// The refusal, at `place`, of a file that is too long, or of records that accepted adds from this file do not leave.
    pub(crate) fn check(self, used: u16, place: usize) -> Result<(), Refusal>
        ensures { result ≡ checked self.entry.file.now used self.entry.records.now place }
    {
        if self.file.len() > MAX_FILE {
            return Err(Refusal {
                reason: Reason::Full,
                place: MAX_FILE,
            });
        }
        if usize::from(used) > self.records.len() || !self.is_sound(used) {
            return Err(Refusal {
                reason: Reason::ForeignTable,
                place,
            });
        }
        Ok(())
    }
}

/// Adds the node of the field at `place` to a draft whose records are known to be what accepted adds leave.
pub(crate) fn enter(
    file: &[u8],
    draft: &mut Draft,
    table: &mut [Record],
    place: usize,
) -> Result<usize, Refusal>
    requires small { length file.now ≤ 65535 }
    requires within { draft.old.nodes ≤ length table.old }
    requires sound { sound file.now table.old draft.old.nodes ≡ true }
    ensures { Add file.now place draft.old.nodes table.old draft.new.nodes table.new result }
{
    let used = usize::from(draft.nodes);
    let waiting = Waiting {
        source: Source {
            file,
            records: table,
        },
        end: used,
    };
    let (made, next) = waiting.accept(place)?;
    if used == table.len() {
        return Err(Refusal {
            reason: Reason::Full,
            place,
        });
    }
    table[used] = made;
    draft.nodes += 1;
    Ok(next)
}

/// Adds the node of the field at `place`, and answers the place of the next field; a refusal changes nothing.
#[tactic(auto, using(crate::proofs::Leaving::foreign_only, crate::proofs::Plainly::falls_into_parts, crate::proofs::RowsSay::rows_say))]
pub fn add(
    file: &[u8],
    draft: &mut Draft,
    table: &mut [Record],
    place: usize,
) -> Result<usize, Refusal>
    ensures call { Add file.now place draft.old.nodes table.old draft.new.nodes table.new result }
    ensures foreign { ForeignOnly file.now }
    ensures grammar { FallsIntoParts }
    ensures rows { RowsSay }
{
    let source = Source {
        file,
        records: table,
    };
    source.check(draft.nodes, place)?;
    enter(file, draft, table, place)
}
