//! The canonical spelling of a fraction, which `read_text` reads.
ghost use Rattle.std.specs.Prelude.{◌≡◌, IfOk};
ghost use Rattle.fraction128.specs.Spelling.{spelling};

use crate::Fraction;
use foundation::OutOfMemory;
use itoa::Buffer;
use std::alloc::Global;

impl Fraction {
    /// The canonical spelling in ASCII: the numerator, and after a `/` the denominator where it is not 1.
    pub fn write_text(&self, alloc: Global) -> Result<Vec<u8>, OutOfMemory>
        ensures { IfOk result (λ text. text.items ≡ spelling self.now) }
    {
        let mut buffer = Buffer::new();
        let mut text = Vec::from_slice(alloc, buffer.format(self.numerator).as_bytes())?;
        if self.denominator != 1 {
            text.push(b'/')?;
            text.extend_from_slice(buffer.format(self.denominator).as_bytes())?;
        }
        Ok(text)
    }
}
