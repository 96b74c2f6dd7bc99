// What pictures are made of: places, texts and a style.

use kl1_lines::put_decimal;
use std::alloc::AllocError;

/// Puts tenths after the bytes.
pub fn put_tenths(tenths: u64, out: &mut Vec<u8>) -> Result<(), AllocError> {
    put_decimal(out, tenths / 10)?;
    out.push(b'.')?;
    put_decimal(out, tenths % 10)
}

/// Puts a text after the bytes, as it stands in a picture.
pub fn put_escaped(text: &[u8], out: &mut Vec<u8>) -> Result<(), AllocError> {
    for byte in text {
        match *byte {
            b'&' => out.extend_from_slice(b"&amp;")?,
            b'<' => out.extend_from_slice(b"&lt;")?,
            b'>' => out.extend_from_slice(b"&gt;")?,
            b'"' => out.extend_from_slice(b"&quot;")?,
            other => out.push(other)?,
        }
    }
    Ok(())
}

/// The forms and colours, which are told apart by their lightness too.
pub const STYLE: &[u8] = b"<style>
text { font-family: DejaVu Sans, Verdana, sans-serif; font-size: 11px; fill: #222 }
.title { font-size: 14px; font-weight: bold }
.legend { fill: #555 }
.number { font-size: 9px; fill: #666; text-anchor: middle }
.grid { stroke: #eee }
.label { text-anchor: end }
.shoen { fill: #8a4b00 }
.lane { stroke: #9fb4c8; stroke-width: 2 }
.wait { fill: #fbe3b0; stroke: #c98a00; stroke-width: 0.6 }
.fork { stroke: #aaa; stroke-width: 0.8; stroke-dasharray: 3,2 }
.wake { stroke: #00734d; stroke-width: 1.1 }
.reduction { fill: #12365c }
.built-in { fill: #5b88b5 }
.exception { fill: #ff9f5a; stroke: #5c1a00; stroke-width: 1.4 }
.report { stroke: #888; stroke-width: 0.7; stroke-dasharray: 1,3 }
.raised { stroke: #a33f00; stroke-width: 0.9; stroke-dasharray: 6,2,1,2 }
.report-text { font-size: 9px; fill: #444 }
.raised-text { font-size: 9px; fill: #a33f00; font-weight: bold }
</style>
<defs><marker id=\"head\" markerWidth=\"7\" markerHeight=\"7\" refX=\"5\" refY=\"3\" orient=\"auto\"><path d=\"M0,0 L6,3 L0,6 z\" fill=\"#00734d\"/></marker></defs>
<rect width=\"100%\" height=\"100%\" fill=\"white\"/>
";

/// What the forms mean.
pub const LEGEND: &[u8] =
    b"a lane for each process; dot: reduction, small dot: = or :=, square, dash-dot: exception, bar: waits, arrow: a binding wakes, dashes: new process, dots: report";

/// Puts a line of text at a height after the bytes.
pub fn put_text(class: &[u8], y: u64, text: &[u8], out: &mut Vec<u8>) -> Result<(), AllocError> {
    out.extend_from_slice(b"<text class=\"")?;
    out.extend_from_slice(class)?;
    out.extend_from_slice(b"\" x=\"10\" y=\"")?;
    put_decimal(out, y)?;
    out.extend_from_slice(b"\">")?;
    put_escaped(text, out)?;
    out.extend_from_slice(b"</text>\n")
}
