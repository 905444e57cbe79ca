//! How items of the cache went from list to list, as a part of a picture.
use crate::rows::Row;
use crate::scales::Tenths;
use std::alloc::AllocError;

/// So high the flow of one size is.
pub const FLOW_HEIGHT: u64 = 205;

/// So high what stands above all flows is.
pub const LEGEND_HEIGHT: u64 = 40;

// So wide the widest way is, and the thinnest that is drawn, in tenths.
const WIDEST: u64 = 240;

const THINNEST: u64 = 5;

/// How the text of a way's count stands to its place.
#[derive(Clone, Copy)]
enum Anchor {
    Start,
    Middle,
    End,
}

impl Anchor {
    fn class(self) -> &'static str {
        match self {
            Anchor::Start => "start",
            Anchor::Middle => "mid",
            Anchor::End => "end",
        }
    }
}

// A way of items between two lists, and where its count stands.
#[derive(Clone, Copy)]
struct Way {
    path: &'static str,
    count: u64,
    place: (u64, u64),
    anchor: Anchor,
    arrow: &'static str,
}

fn middle_way(path: &'static str, count: u64, place: (u64, u64), arrow: &'static str) -> Way {
    Way {
        path,
        count,
        place,
        anchor: Anchor::Middle,
        arrow,
    }
}

fn side_way(path: &'static str, count: u64, place: (u64, u64), anchor: Anchor) -> Way {
    Way {
        path,
        count,
        place,
        anchor,
        arrow: "→",
    }
}

// The ways of a cache's items. Each count stands so far from its way that it is clear of the widest one.
fn ways_of(row: &Row) -> [Way; 7] {
    let flow = row.bump.stats.flow;
    let around = Way {
        path: "M330 140C330 196 370 196 370 140",
        count: flow.warm_to_warm,
        place: (388, 176),
        anchor: Anchor::Start,
        arrow: "↺",
    };
    [
        side_way("M20 108H120", flow.linked, (116, 136), Anchor::End),
        middle_way("M200 108H310", flow.hot_to_warm, (255, 90), "→"),
        middle_way("M390 92H500", flow.warm_to_cold, (445, 74), "→"),
        middle_way("M500 124H390", flow.cold_to_warm, (445, 152), "←"),
        middle_way(
            "M160 76C160 16 540 16 540 76",
            flow.hot_to_cold,
            (350, 14),
            "→",
        ),
        around,
        side_way(
            "M580 108H680",
            row.bump.stats.evicted(),
            (584, 136),
            Anchor::Start,
        ),
    ]
}

/// The count of the way that most items went, of all these rows: it is as wide as a way may be, and the others are by
/// the same scale.
pub fn most_of(rows: &[&Row]) -> u64 {
    let mut most = 0;
    for row in rows {
        for way in ways_of(row) {
            most = way.count.max(most);
        }
    }
    most
}

// How wide a way is, in tenths, where the widest is of so many.
fn width_of(count: u64, most: u64) -> u64 {
    let width = u128::from(count) * u128::from(WIDEST) / u128::from(most.max(1));
    u64::try_from(width)
        .unwrap_or(WIDEST)
        .clamp(THINNEST, WIDEST)
}

// A way, which isn't drawn where no item went it, and its count.
fn put_way(text: &mut String, way: Way, most: u64) -> Result<(), AllocError> {
    if way.count > 0 {
        let width = Tenths(width_of(way.count, most));
        let path = way.path;
        writeln!(
            text,
            "<path class=\"way\" stroke-width=\"{width}\" d=\"{path}\"/>"
        )?;
    }
    let (x, y) = way.place;
    let class = way.anchor.class();
    writeln!(
        text,
        "<text x=\"{x}\" y=\"{y}\" class=\"{class}\">{} {}</text>",
        way.count, way.arrow
    )
}

fn put_list(text: &mut String, name: &str, x: u64) -> Result<(), AllocError> {
    let middle = x.saturating_add(40);
    writeln!(
        text,
        "<rect class=\"list\" x=\"{x}\" y=\"76\" width=\"80\" height=\"64\"/>"
    )?;
    writeln!(
        text,
        "<text x=\"{middle}\" y=\"113\" class=\"mid\">{name}</text>"
    )
}

/// Writes how items of one size's cache went from list to list, where the widest way is of so many.
pub fn put_flow(text: &mut String, row: &Row, most: u64) -> Result<(), AllocError> {
    let items = row.items;
    writeln!(text, "<text x=\"20\" y=\"24\">of {items} items</text>")?;
    for way in ways_of(row) {
        put_way(text, way, most)?;
    }
    writeln!(text, "<text x=\"70\" y=\"90\" class=\"mid\">put</text>")?;
    writeln!(
        text,
        "<text x=\"630\" y=\"90\" class=\"mid\">evicted</text>"
    )?;
    put_list(text, "HOT", 120)?;
    put_list(text, "WARM", 310)?;
    put_list(text, "COLD", 500)
}

/// Writes what the widths mean, where the widest way is of so many.
pub fn put_legend(text: &mut String, most: u64) -> Result<(), AllocError> {
    writeln!(
        text,
        "<text x=\"20\" y=\"14\">How items went from list to list.</text>"
    )?;
    writeln!(
        text,
        "<text x=\"20\" y=\"32\">All widths are by one scale, the widest for {most} items; a hairline stands for few.</text>"
    )
}
