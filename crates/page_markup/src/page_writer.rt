//! A page that is written element by element: the writer, and the calls that open, fill and end
//! elements. A call that writes has a clause for the text (`written`), for the tree that the text is of
//! (`tree`), and for refused memory (`refused`). In contracts, `Follows` says that the tree is changed
//! as its first argument does it. By this `with_child` opens an element, `with_more` puts a content
//! last, and `without_child` ends the innermost element. `opened`, `added` and `closed` say what the
//! text is then. `Nothing` is what follows the last content.
ghost use Rattle.std.specs.Prelude.{◌≡◌, ℕ, List, [], IfOk, length, OnErr, OnOk};
ghost use Rattle.std.specs.Fmt.{decimal};
ghost use Rattle.page_markup.specs.Drafts.{Draft, Follows, shown, whole, with_child, with_more, without_child};
ghost use Rattle.page_markup.specs.Escapes.{escaped, IsInert, IsKept};
ghost use Rattle.page_markup.specs.OpenPages.{added, begun, closed, finished, given, opened};
ghost use Rattle.page_markup.specs.Trees.{IsWellFormed, page_text};
ghost use Rattle.page_markup.specs.Trees.Content.{Nothing, Style, Void, Words};

use crate::attribute::{Attribute, Value};
use crate::escaping::push_escaped;
use crate::marks::{push_attribute, push_end, push_start, push_void};
use crate::style::push_style;
use crate::tag::{Tag, VoidTag};
use foundation::OutOfMemory;
use itoa::Buffer;
use std::alloc::Global;
use std::marker::Model;

/// A page that is being written. Contracts see the text so far and which elements are open, the
/// innermost first; the field `tags` has the outermost first. The text is always that of some tree.
///
/// A call that is refused memory leaves the page as before. So each call writes into `mark` first, and
/// then puts that behind `text` at once.
#[derive(Drop)]
pub struct PageWriter {
    text: Vec<u8>,
    tags: Vec<Tag>,
    mark: Vec<u8>,
}

impl Model for PageWriter {
    ghost use Rattle.std.specs.Prelude.{reverse};
    ghost use Rattle.page_markup.specs.OpenPages.{OpenPage};
    ghost use Rattle.page_markup.specs.Drafts.{IsOfTree};

    ghost Value = { OpenPage };

    ghost view = { λ w. record { text = w.text.items; tags = reverse w.tags.items } };

    ghost invariant = { λ w. IsOfTree (record { text = w.text.items; tags = reverse w.tags.items }) };
}

impl PageWriter {
    /// A page in a language, as `en`, that holds nothing yet: what stands before all elements is written,
    /// and none is open.
    #[tactic(auto, unfolding(crate::specs::Trees::page_start))]
    pub fn new(alloc: Global, language: &[u8]) -> Result<PageWriter, OutOfMemory>
        ensures begun { IfOk result (λ page. page ≡ begun language.now) }
        ensures tree { IfOk result (λ page. page ≡ shown (record { language = language.now; frames = []; here = Nothing })) }
    {
        let mut text = Vec::from_slice(alloc, b"<!DOCTYPE html>\n<html")?;
        push_attribute(&mut text, Attribute::Language, Value::Words(language))?;
        text.extend_from_slice(b">\n")?;
        Ok(PageWriter {
            text,
            tags: Vec::new(alloc),
            mark: Vec::new(alloc),
        })
    }

    /// Opens an element in the innermost one that is open, or in the page itself where none is. An
    /// attribute that is given twice is written twice, which no browser reads as meant: give each once.
    pub fn open(&mut self, tag: Tag, attributes: &[(Attribute, Value)]) -> Result<(), OutOfMemory>
        ensures written { OnOk result (self.new ≡ opened tag (given attributes.now) self.old) }
        ensures tree { OnOk result (Follows (with_child tag (given attributes.now)) self.old self.new) }
        ensures refused { OnErr result (self.new ≡ self.old) }
    {
        self.mark.clear();
        push_start(&mut self.mark, tag, attributes)?;
        let depth = self.tags.len();
        self.tags.push(tag)?;
        match self.text.extend_from_slice(&self.mark) {
            Ok(()) => Ok(()),
            Err(_) => {
                self.tags.truncate(depth);
                Err(OutOfMemory)
            }
        }
    }

    /// Ends the innermost element that is open. Where none is, it writes nothing, and that is no fault.
    pub fn close(&mut self) -> Result<(), OutOfMemory>
        ensures written { OnOk result (self.new ≡ closed self.old) }
        ensures tree { OnOk result (Follows without_child self.old self.new) }
        ensures refused { OnErr result (self.new ≡ self.old) }
    {
        let Some(tag) = self.tags.last() else {
            return Ok(());
        };
        self.mark.clear();
        push_end(&mut self.mark, *tag)?;
        self.text.extend_from_slice(&self.mark)?;
        self.tags.pop();
        Ok(())
    }

    /// Writes a whole element of a kind that never holds anything, such as a line of a drawing. An
    /// attribute that is given twice is written twice, which no browser reads as meant: give each once.
    pub fn empty(
        &mut self,
        tag: VoidTag,
        attributes: &[(Attribute, Value)],
    ) -> Result<(), OutOfMemory>
        ensures written { OnOk result (self.new ≡ added (Void tag (given attributes.now) Nothing) self.old) }
        ensures tree { OnOk result (Follows (with_more (Void tag (given attributes.now) Nothing)) self.old self.new) }
        ensures refused { OnErr result (self.new ≡ self.old) }
    {
        self.mark.clear();
        push_void(&mut self.mark, tag, attributes)?;
        self.text.extend_from_slice(&self.mark)?;
        Ok(())
    }

    /// Writes words into the innermost open element, whatever their bytes are. None of them can open or
    /// end an element (`inert`). Words of which no byte is replaced can be told from the page (`told`):
    /// no other such words are written alike.
    pub fn text(&mut self, words: &[u8]) -> Result<(), OutOfMemory>
        ensures written { OnOk result (self.new ≡ added (Words words.now Nothing) self.old) }
        ensures tree { OnOk result (Follows (with_more (Words words.now Nothing)) self.old self.new) }
        ensures refused { OnErr result (self.new ≡ self.old) }
        ensures inert { IsInert (escaped words.now) }
        ensures told { IsKept words.now → (other : List ℕ) → IsKept other → escaped other ≡ escaped words.now → other ≡ words.now }
    {
        self.mark.clear();
        push_escaped(&mut self.mark, words)?;
        self.text.extend_from_slice(&self.mark)?;
        Ok(())
    }

    /// Writes a number in decimal digits into the innermost open element.
    pub fn number(&mut self, number: u64) -> Result<(), OutOfMemory>
        ensures written { OnOk result (self.new ≡ added (Words (decimal number) Nothing) self.old) }
        ensures tree { OnOk result (Follows (with_more (Words (decimal number) Nothing)) self.old self.new) }
        ensures refused { OnErr result (self.new ≡ self.old) }
    {
        self.text(Buffer::new().format(number).as_bytes())
    }

    /// Writes the style sheet [`crate::STYLE`] into the innermost open element. It is meant for the head,
    /// but no call looks at where it stands.
    pub fn style(&mut self) -> Result<(), OutOfMemory>
        ensures written { OnOk result (self.new ≡ added (Style Nothing) self.old) }
        ensures tree { OnOk result (Follows (with_more (Style Nothing)) self.old self.new) }
        ensures refused { OnErr result (self.new ≡ self.old) }
    {
        self.mark.clear();
        push_style(&mut self.mark)?;
        self.text.extend_from_slice(&self.mark)?;
        Ok(())
    }

    /// How many elements are open; the page's own `html` is not counted. No memory.
    pub fn depth(&self) -> usize
        ensures { result ≡ length self.now.tags }
    {
        self.tags.len()
    }

    /// The whole page: each element that is still open is ended, and then the page. The writer is used
    /// up, also where memory is refused.
    #[tactic(auto, unfolding(crate::specs::Trees::page_end))]
    pub fn finish(mut self) -> Result<Vec<u8>, OutOfMemory>
        ensures written { IfOk result (λ page. page.items ≡ finished self) }
        ensures tree { IfOk result (λ page. (draft : Draft) → self ≡ shown draft → page.items ≡ page_text draft.language (whole draft)) }
        ensures well_formed { IfOk result (λ page. IsWellFormed page.items) }
    {
        while self.depth() > 0 {
            self.close()?;
        }
        let PageWriter { mut text, .. } = self;
        text.extend_from_slice(b"\n</html>\n")?;
        Ok(text)
    }
}
