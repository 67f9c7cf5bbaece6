//! The style sheet of a page, which stands in the page itself.
ghost use Rattle.std.specs.Prelude.{◌≡◌, ◌++◌, OnOk};
ghost use Rattle.page_markup.specs.Trees.{style_text};

use foundation::OutOfMemory;

/// The rules, one a line, in the order in which they stand in the page. They name no other file.
///
/// The classes `first` to `fourth` are the colours of series, and `axis` and `grid` lines of a drawing.
/// `legend` is a line with the names of series, and `key` the small square before each. `table` is a box
/// in which a long table scrolls, and `number` a cell that stands at the right of its column. `note` is
/// what is said by the way.
pub const STYLE: &[u8] =
    b"body{margin:0 auto;padding:1.5rem;max-width:56rem;background:#fff;color:#1b1f24;font:16px/1.5 system-ui,sans-serif}
h1{margin:0 0 .5rem;font-size:1.7rem}
h2{margin:2.5rem 0 .5rem;font-size:1.3rem}
h3{margin:1.5rem 0 .5rem;font-size:1.05rem}
small,.note{color:#57606a}
figure{margin:1.5rem 0 2.5rem}
figcaption{font-weight:600;margin-bottom:.25rem}
figure p{margin:0 0 .5rem;font-size:.9rem}
svg{display:block;width:100%;height:auto;overflow:visible}
svg text{font-size:14px;fill:#1b1f24}
.axis{stroke:#57606a}
.grid{stroke:#c4ccd4}
.first{fill:#1f4e8c}
.second{fill:#c2570c}
.third{fill:#2f7d6b}
.fourth{fill:#7b5ea7}
.legend span{display:inline-block;margin-right:1.25rem}
svg.key{display:inline-block;width:.8em;margin-right:.4em}
.table{max-height:22rem;overflow:auto;margin:1rem 0}
table{border-collapse:collapse;font-size:.9rem;font-variant-numeric:tabular-nums}
caption{text-align:left;font-weight:600;padding-bottom:.25rem}
figure caption{position:absolute;width:1px;height:1px;overflow:hidden;clip-path:inset(50%)}
th,td{padding:.2rem 0 .2rem 1.25rem;text-align:left;vertical-align:top;font-weight:400;border-bottom:1px solid #d8dee4}
th:first-child{padding-left:0;min-width:6rem}
tbody th{overflow-wrap:anywhere}
thead th{position:sticky;top:0;background:#fff;font-weight:600;vertical-align:bottom;border:0;box-shadow:inset 0 -1px #57606a}
.number{text-align:right}
table:has(tr>:nth-child(2).number) thead :nth-child(2){text-align:right}
table:has(tr>:nth-child(3).number) thead :nth-child(3){text-align:right}
table:has(tr>:nth-child(4).number) thead :nth-child(4){text-align:right}
table:has(tr>:nth-child(5).number) thead :nth-child(5){text-align:right}
table:has(tr>:nth-child(6).number) thead :nth-child(6){text-align:right}
@media (max-width:40rem){svg text{font-size:20px}}
@media print{
body{margin:0;padding:0;max-width:none;font-size:11pt}
*{print-color-adjust:exact}
.table{max-height:none;overflow:visible}
svg{max-height:23cm}
svg,tr,.legend{break-inside:avoid}
figcaption,.legend,h2,h3{break-after:avoid}
thead th{position:static}
}
";

/// Appends the style sheet as it stands in a page: `STYLE` between the tags of `style`. Refused memory may
/// leave a part of it appended.
#[tactic(auto, unfolding(crate::specs::Trees::style_text))]
pub(crate) fn push_style(text: &mut Vec<u8>) -> Result<(), OutOfMemory>
    ensures { OnOk result (text.new.items ≡ text.old.items ++ style_text) }
{
    text.extend_from_slice(b"<style>")?;
    text.extend_from_slice(STYLE)?;
    text.extend_from_slice(b"</style>")?;
    Ok(())
}
