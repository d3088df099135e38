//! The parts of a drawing.

use std::alloc::AllocError;

/// Adds a text with the marks of XML replaced, and what is no printable character of ASCII by a
/// question mark.
pub(crate) fn append_escaped(out: &mut String, text: &str) -> Result<(), AllocError> {
    for byte in text.as_bytes() {
        append_byte(out, *byte)?;
    }
    Ok(())
}

// Adds a byte of a text.
fn append_byte(out: &mut String, byte: u8) -> Result<(), AllocError> {
    match byte {
        b'&' => out.push_str("&amp;"),
        b'<' => out.push_str("&lt;"),
        b'>' => out.push_str("&gt;"),
        b' '..=b'~' => out.push(byte as char),
        _ => out.push_str("?"),
    }
}

/// Adds a text of this class at a place, if there is any.
pub(crate) fn append_text(
    out: &mut String,
    class: &str,
    x: u64,
    y: u64,
    text: &str,
) -> Result<(), AllocError> {
    if text.is_empty() {
        return Ok(());
    }
    write!(out, "<text class=\"{class}\" x=\"{x}\" y=\"{y}\">")?;
    append_escaped(out, text)?;
    out.push_str("</text>\n")
}

/// Adds a line of this class from one place to another.
pub(crate) fn append_line(
    out: &mut String,
    class: &str,
    from: (u64, u64),
    to: (u64, u64),
) -> Result<(), AllocError> {
    let (x, y) = from;
    write!(out, "<line class=\"{class}\" x1=\"{x}\" y1=\"{y}\"")?;
    let (x, y) = to;
    write!(out, " x2=\"{x}\" y2=\"{y}\"/>\n")
}

/// Adds an arrow that comes back to the column at `x`.
pub(crate) fn append_loop(out: &mut String, x: u64, y: u64) -> Result<(), AllocError> {
    let top = y.saturating_sub(10);
    write!(out, "<path class=\"arrow\" d=\"M{x} {top}h40v10h-40\"/>\n")
}

/// Adds a box, which tells the line of a transition.
pub(crate) fn append_box(
    out: &mut String,
    line: usize,
    corner: (u64, u64),
    width: u64,
) -> Result<(), AllocError> {
    let (x, y) = corner;
    write!(out, "<rect class=\"box\" x=\"{x}\" y=\"{y}\" rx=\"4\"")?;
    write!(out, " width=\"{width}\" height=\"20\">")?;
    write!(out, "<title>line {line}</title></rect>\n")
}

/// Adds the beginning of a drawing of this size, with a page below it. Its colours are those of a
/// light or a dark page.
pub(crate) fn append_head(out: &mut String, width: u64, height: u64) -> Result<(), AllocError> {
    write!(
        out,
        "<svg xmlns=\"http://www.w3.org/2000/svg\" width=\"{width}\" height=\"{height}\">\n"
    )?;
    out.push_str(STYLE)?;
    write!(
        out,
        "<rect class=\"page\" width=\"{width}\" height=\"{height}\" fill=\"#fff\"/>\n"
    )
}

// The style of a drawing, and the heads of its arrows. Texts have a rim that keeps lines off them.
const STYLE: &str = "<style>
svg { color: #222 }
text { font: 12px sans-serif; fill: currentColor }
text { stroke: #fff; stroke-width: 4px; paint-order: stroke }
.number, .state { fill-opacity: .65 }
.middle, .title, .name { text-anchor: middle }
.title { font-weight: bold }
.name { stroke: none }
line, rect, .arrow { stroke: currentColor; fill: none }
.life { opacity: .35 }
.time { stroke-dasharray: 6 4; opacity: .5 }
.arrow { marker-end: url(#head) }
.box { fill: #e8eef8 }
.page { fill: #fff; stroke: none }
.refused { fill: #b00020; font-weight: bold }
.wanted { fill: #00662e }
@media (prefers-color-scheme: dark) {
svg { color: #ddd }
text { stroke: #1c1c1c }
.name { stroke: none }
.box { fill: #2c3644 }
.page { fill: #1c1c1c }
.refused { fill: #ff8a80 }
.wanted { fill: #7ddc9c }
}
</style>
<defs><marker id=\"head\" viewBox=\"0 0 8 8\" refX=\"8\" refY=\"4\" markerWidth=\"8\"
markerHeight=\"8\" orient=\"auto\"><path d=\"M0 0 8 4 0 8z\" fill=\"currentColor\"/></marker></defs>
";
