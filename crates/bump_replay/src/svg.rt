//! What runs came to, as a picture: the share of misses over the sizes, and how items of the cache went from list to
//! list.
use crate::chart::Chart;
use crate::flows::{FLOW_HEIGHT, LEGEND_HEIGHT, most_of, put_flow, put_legend};
use crate::rows::{Row, by_size};
use std::alloc::{AllocError, Global};

// So high the chart is.
const CHART_HEIGHT: u64 = 365;

const HEAD: &str =
    "<style>text{font:13px sans-serif;fill:#333}.mid{text-anchor:middle}.end{text-anchor:end}\
.axis{stroke:#999;stroke-width:.5}.mark{stroke:#777}.lead{fill:none;stroke-width:.8;opacity:.6}\
.way{stroke:#8a63d2;fill:none;opacity:.6}.list{fill:#e8e8ee;stroke:#777}\
@media(prefers-color-scheme:dark){text{fill:#ddd}.list{fill:#334}}</style>";

/// The picture of these rows, as the text of an SVG file; whether its shares are from 0 to 100 percent, or as the data
/// are. It is refused only for want of memory.
pub fn picture(alloc: Global, rows: &[Row], is_full: bool) -> Result<String, AllocError> {
    let sorted = by_size(alloc, rows)?;
    let chart = Chart::new(alloc, &sorted, is_full)?;
    let mut text = String::new(alloc);
    let flows = (rows.len() as u64).saturating_mul(FLOW_HEIGHT);
    let height = flows.saturating_add(CHART_HEIGHT + LEGEND_HEIGHT);
    writeln!(
        text,
        "<svg xmlns=\"http://www.w3.org/2000/svg\" viewBox=\"0 0 700 {height}\" role=\"img\">"
    )?;
    writeln!(text, "<title>Misses by size, and the flow of items</title>")?;
    writeln!(text, "{HEAD}")?;
    chart.put(alloc, &mut text)?;
    put_flows(&mut text, &sorted)?;
    writeln!(text, "</svg>")?;
    Ok(text)
}

// The flows below the chart, one below the other.
fn put_flows(text: &mut String, rows: &[&Row]) -> Result<(), AllocError> {
    let most = most_of(rows);
    writeln!(text, "<g transform=\"translate(0 {CHART_HEIGHT})\">")?;
    put_legend(text, most)?;
    writeln!(text, "</g>")?;
    for (place, row) in rows.iter().enumerate() {
        let above = (place as u64).saturating_mul(FLOW_HEIGHT);
        let below = above.saturating_add(CHART_HEIGHT + LEGEND_HEIGHT);
        writeln!(text, "<g transform=\"translate(0 {below})\">")?;
        put_flow(text, row, most)?;
        writeln!(text, "</g>")?;
    }
    Ok(())
}
