//! A page with hostile texts. What is expected was written by hand.

use crate::{Attribute, PageWriter, Tag, Value, VoidTag};
use foundation::OutOfMemory;
use std::alloc::Global;
use std::test::Fail;

/// What `hostile_page` is to be, byte for byte.
const PAGE: &[u8] = b"<!DOCTYPE html>
<html lang=\"en\">
<head><meta charset=\"utf-8\" />\
<title>&lt;/title&gt;&lt;script&gt;alert(&#39;1&#39;)&lt;/script&gt;</title></head>\
<body><p class=\"&quot;&gt;&lt;b x=&#39;\">caf\xC3\xA9 \xEF\xBF\xBD\xEF\xBF\xBD
caf\xEF\xBF\xBD &amp;amp;18446744073709551615</p></body>
</html>
";

// Writes a page whose texts and value hold markup, control characters and broken UTF-8. `close` is called
// once before any element is open, and `finish` has to end two elements.
fn hostile_page(alloc: Global) -> Result<Vec<u8>, OutOfMemory> {
    let mut page = PageWriter::new(alloc, b"en")?;
    page.close()?;
    page.open(Tag::Head, &[])?;
    page.empty(
        VoidTag::Meta,
        &[(Attribute::Charset, Value::Words(b"utf-8"))],
    )?;
    page.open(Tag::Title, &[])?;
    page.text(b"</title><script>alert('1')</script>")?;
    page.close()?;
    page.close()?;
    page.open(Tag::Body, &[])?;
    page.open(
        Tag::Paragraph,
        &[(Attribute::Class, Value::Words(b"\"><b x='"))],
    )?;
    page.text(b"caf\xC3\xA9 \x01\x7F\n")?;
    page.text(b"caf\xE9 &amp;")?;
    page.number(18_446_744_073_709_551_615)?;
    page.finish()
}

// Texts and a value with markup in them open no element and end no value: the page is `PAGE`.
#[test]
fn no_text_opens_an_element_or_leaves_an_attribute(rt: HostRuntime) -> Result<(), Fail> {
    let page = hostile_page(rt.alloc())?;
    assert_eq!(rt; page.as_slice(), PAGE);
    Ok(())
}
