//! A picture of each form, as it stands in a page. What is expected was written by hand.

use crate::{Bar, Figure, push_bars, push_histogram};
use foundation::OutOfMemory;
use page_markup::PageWriter;
use std::alloc::Global;
use std::test::Fail;

/// The page of two bars, one of which has a label that is cut.
const BARS: &[u8] = b"<!DOCTYPE html>
<html lang=\"en\">
<figure><figcaption>Values</figcaption><p class=\"legend\">\
<span><svg class=\"key\" viewBox=\"0 0 16 16\"><rect class=\"first\" x=\"0\" y=\"0\" width=\"16\" height=\"16\" /></svg>changed</span>\
<span><svg class=\"key\" viewBox=\"0 0 16 16\"><rect class=\"second\" x=\"0\" y=\"0\" width=\"16\" height=\"16\" /></svg>filled</span></p>\
<svg role=\"img\" aria-labelledby=\"title-7 description-7\" viewBox=\"0 0 784 52\">\
<title id=\"title-7\">Values</title><desc id=\"description-7\">by field</desc><g>\
<g><title>turnover of the year</title><text x=\"216\" y=\"18\" text-anchor=\"end\">turnover of the\xE2\x80\xA6</text>\
<g><rect class=\"first\" x=\"224\" y=\"4\" width=\"360\" height=\"18\" />\
<rect class=\"second\" x=\"584\" y=\"4\" width=\"120\" height=\"18\" /></g>\
<text x=\"784\" y=\"18\" text-anchor=\"end\">4</text></g>\
<g><title>wages</title><text x=\"216\" y=\"44\" text-anchor=\"end\">wages</text>\
<g><rect class=\"first\" x=\"224\" y=\"30\" width=\"0\" height=\"18\" />\
<rect class=\"second\" x=\"224\" y=\"30\" width=\"240\" height=\"18\" /></g>\
<text x=\"784\" y=\"44\" text-anchor=\"end\">2</text></g></g>\
<line class=\"axis\" x1=\"224\" y1=\"0\" x2=\"224\" y2=\"52\" /></svg>\
<div class=\"table\"><table><caption>Values</caption><thead><tr><th scope=\"col\">field</th><th scope=\"col\">changed</th>\
<th scope=\"col\">filled</th><th scope=\"col\">total</th></tr></thead>\
<tbody><tr><th scope=\"row\">turnover of the year</th>\
<td class=\"number\">3</td><td class=\"number\">1</td><td class=\"number\">4</td></tr>\
<tr><th scope=\"row\">wages</th><td class=\"number\">0</td>\
<td class=\"number\">2</td><td class=\"number\">2</td></tr></tbody></table></div></figure>
</html>
";

/// The page of two bins with one series.
const BINS: &[u8] = b"<!DOCTYPE html>
<html lang=\"en\">
<figure><figcaption>Ages</figcaption><p class=\"legend\">\
<span><svg class=\"key\" viewBox=\"0 0 16 16\"><rect class=\"first\" x=\"0\" y=\"0\" width=\"16\" height=\"16\" /></svg>records</span></p>\
<svg role=\"img\" aria-labelledby=\"title-8 description-8\" viewBox=\"0 0 784 296\">\
<title id=\"title-8\">Ages</title><desc id=\"description-8\">in years</desc>\
<g><line class=\"grid\" x1=\"88\" y1=\"24\" x2=\"784\" y2=\"24\" /><text x=\"80\" y=\"24\" text-anchor=\"end\">3</text></g><g>\
<g><title>0 to 9</title><g><rect class=\"first\" x=\"88\" y=\"24\" width=\"64\" height=\"240\" /></g>\
<text x=\"120\" y=\"288\" text-anchor=\"middle\">0 to 9</text></g>\
<g><title>10 to 19</title><g><rect class=\"first\" x=\"168\" y=\"264\" width=\"64\" height=\"0\" /></g></g></g>\
<g><line class=\"axis\" x1=\"88\" y1=\"264\" x2=\"784\" y2=\"264\" /><text x=\"80\" y=\"264\" text-anchor=\"end\">0</text></g></svg>\
<div class=\"table\"><table><caption>Ages</caption><thead><tr><th scope=\"col\">age</th><th scope=\"col\">records</th></tr></thead>\
<tbody><tr><th scope=\"row\">0 to 9</th><td class=\"number\">3</td></tr>\
<tr><th scope=\"row\">10 to 19</th><td class=\"number\">0</td></tr></tbody></table></div></figure>
</html>
";

// The page that is written with the two bars, and nothing else.
fn bars_page(alloc: Global) -> Result<Vec<u8>, OutOfMemory> {
    let mut page = PageWriter::new(alloc, b"en")?;
    let figure = Figure {
        id: 7,
        title: b"Values",
        description: b"by field",
        subject: b"field",
    };
    let bars = [
        Bar {
            label: b"turnover of the year",
            parts: &[3, 1],
        },
        Bar {
            label: b"wages",
            parts: &[0, 2],
        },
    ];
    push_bars(alloc, &mut page, &figure, &[b"changed", b"filled"], &bars)?;
    page.finish()
}

// The page that is written with the two bins, and nothing else.
fn bins_page(alloc: Global) -> Result<Vec<u8>, OutOfMemory> {
    let mut page = PageWriter::new(alloc, b"en")?;
    let figure = Figure {
        id: 8,
        title: b"Ages",
        description: b"in years",
        subject: b"age",
    };
    let bins = [
        Bar {
            label: b"0 to 9",
            parts: &[3],
        },
        Bar {
            label: b"10 to 19",
            parts: &[0],
        },
    ];
    push_histogram(alloc, &mut page, &figure, &[b"records"], &bins)?;
    page.finish()
}

// The page of bars is the one that was written by hand, byte for byte.
#[test]
fn bars_stand_over_a_table_with_their_totals(rt: HostRuntime) -> Result<(), Fail> {
    let page = bars_page(rt.alloc())?;
    assert_eq!(rt; page.as_slice(), BARS);
    Ok(())
}

// The page of bins is the one that was written by hand, byte for byte.
#[test]
fn bins_stand_over_a_table_of_their_numbers(rt: HostRuntime) -> Result<(), Fail> {
    let page = bins_page(rt.alloc())?;
    assert_eq!(rt; page.as_slice(), BINS);
    Ok(())
}
