//! Number literals.

ghost use Rattle.std.specs.Prelude.{◌≡◌};
ghost use Rattle.text.specs.Numbers.{literal, literal_bytes};

/// The bit pattern of infinity: the largest that is neither a NaN's nor has the sign set.
const INFINITY: u64 = 0x7ff0_0000_0000_0000;

/// The float of a bit pattern, unless it is a NaN's or has the sign set.
fn literal_of(bits: u64) -> Option<f64>
    ensures { result ≡ literal bits }
{
    (bits <= INFINITY).then(|| f64::from_bits(bits))
}

/// The float that eight bytes write, the high one first, unless it is a NaN or has the sign set.
pub fn number_literal(bytes: &[u8]) -> Option<f64>
    ensures { result ≡ literal_bytes bytes.now }
{
    let eight = <[u8; 8]>::try_from(bytes).ok()?;
    literal_of(u64::from_be_bytes(eight))
}
