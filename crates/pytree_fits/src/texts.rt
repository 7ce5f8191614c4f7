//! The characters of texts and bytes, by the number of fields of f-strings that they stand in.

ghost use Rattle.std.specs.Prelude.{◌≡◌, All};
ghost use Rattle.std.specs.List.{list_all};
ghost use Rattle.pytree_node.specs.Points.{IsPoint};
ghost use Rattle.pytree_fits.specs.Literals.{has_bytes, has_formatted_text, has_text, is_bare};
ghost use Rattle.pytree_fits.specs.Literals.{is_bare_byte, is_no_brace};

/// Whether a code point stands for itself between quotes of either kind.
fn is_bare(point: u32) -> bool
    requires { IsPoint point }
    ensures { result ≡ is_bare point }
{
    !(0xD800 <= point && point <= 0xDFFF)
        && !(point == 0 || point == 10 || point == 13 || point == 92 || point == 39 || point == 34)
}

/// Whether each of some code points stands for itself.
fn are_bare(points: &[u32]) -> bool
    requires { All IsPoint points.now }
    ensures { result ≡ list_all is_bare points.now }
{
    for point in points {
        if !is_bare(*point) {
            return false;
        }
    }
    true
}

/// Whether a byte is ASCII and stands for itself.
fn is_bare_byte(byte: u8) -> bool
    ensures { result ≡ is_bare_byte byte }
{
    byte < 0x80 && is_bare(u32::from(byte))
}

/// Whether each of some bytes is ASCII and stands for itself.
fn are_bare_bytes(bytes: &[u8]) -> bool
    ensures { result ≡ list_all is_bare_byte bytes.now }
{
    for byte in bytes {
        if !is_bare_byte(*byte) {
            return false;
        }
    }
    true
}

/// Whether a code point is no brace.
fn is_no_brace(point: u32) -> bool
    ensures { result ≡ is_no_brace point }
{
    !(point == 123 || point == 125)
}

/// Whether none of some code points is a brace.
fn are_no_braces(points: &[u32]) -> bool
    ensures { result ≡ list_all is_no_brace points.now }
{
    for point in points {
        if !is_no_brace(*point) {
            return false;
        }
    }
    true
}

/// Whether a text may stand in so many fields.
pub(crate) fn points_fit(points: &[u32], fields: usize) -> bool
    requires { All IsPoint points.now }
    ensures { result ≡ has_text fields points.now }
{
    match fields {
        0 => true,
        1 => are_bare(points),
        _ => false,
    }
}

/// Whether bytes may stand in so many fields.
pub(crate) fn bytes_fit(bytes: &[u8], fields: usize) -> bool
    ensures { result ≡ has_bytes fields bytes.now }
{
    match fields {
        0 => true,
        1 => are_bare_bytes(bytes),
        _ => false,
    }
}

/// Whether a text of an f-string in so many fields may stand in so many format specs.
pub(crate) fn formatted_fits(points: &[u32], fields: usize, depth: usize) -> bool
    requires { All IsPoint points.now }
    ensures { result ≡ has_formatted_text fields depth points.now }
{
    points_fit(points, fields) && (fields == 0 || depth == 0 || are_no_braces(points))
}
