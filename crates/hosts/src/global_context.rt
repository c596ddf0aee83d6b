//! What the rules ask a host about names and references.

ghost use Rattle.std.specs.Prelude.{◌≡◌};
ghost use Rattle.hosts.specs.Host.{Host, Untyped};

use packed::ValueType;

/// A host, as far as names and references go.
pub trait GlobalContext {
    /// All that a host means.
    ghost view: { Self → Host };

    /// Reference 0 has no type: each implementation shows it.
    ghost untyped: { (x : Self) → Untyped (view x) };

    /// Whether a name with this reference is outer: not declared by the hook.
    fn is_global_reference(&self, name: &[u8], reference: u16) -> bool
        ensures { result ≡ (view self.now).outer name.now reference };

    /// The type of the reference's value, if one is known.
    fn value_type_for_reference_id(&self, reference: u16) -> Option<ValueType>
        ensures { result ≡ (view self.now).typed reference };
}
