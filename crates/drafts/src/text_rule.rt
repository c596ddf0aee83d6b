//! Whether a node may have a text.

ghost use Rattle.std.specs.Prelude.{◌≡◌};
ghost use Rattle.drafts.specs.TextRules.{text_fits};

use super::row::TextRule;
use packed::RawNode;
use text::{is_big_int, is_utf8, number_literal};

impl TextRule {
    /// Whether the node may have its text.
    #[inline(always)]
    pub(crate) fn allows(self, node: RawNode<'_>) -> bool
        ensures { result ≡ text_fits self node.entry.detail node.entry.count node.entry.text.now }
    {
        let text = node.text;
        match self {
            TextRule::Empty => text.is_empty(),
            TextRule::Name => !text.is_empty() && is_utf8(text),
            TextRule::Any => is_utf8(text),
            TextRule::Number => number_literal(text).is_some(),
            TextRule::BigInt => is_big_int(text),
            TextRule::Childless => {
                if node.count == 0 {
                    is_utf8(text)
                } else {
                    text.is_empty()
                }
            }
            TextRule::KeyByCount => {
                if node.count == 2 {
                    text.is_empty()
                } else {
                    is_utf8(text)
                }
            }
            TextRule::KeyByFlag(flag) => {
                if flag.is_set(node.detail) {
                    text.is_empty()
                } else {
                    is_utf8(text)
                }
            }
        }
    }
}
